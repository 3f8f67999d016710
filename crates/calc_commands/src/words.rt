//! The words of commands: the table by which commands are found, and from which help is told.
ghost use Rattle.std.specs.Prelude.{◌≡◌, ◌≤◌, ◌+◌, length};
ghost use Rattle.calc_commands.specs.Words.{all_words, example_of, form_of, padding_of, summary_of, word_among, word_bytes, word_of};

/// The word of a command.
#[derive(Clone, Copy, Debug, PartialEq, Eq)]
pub enum Word {
    Help,
    Pool,
    Dump,
    Names,
    Forget,
    After,
    Layout,
    Latex,
    Draw,
    Diff,
    Solve,
    Roots,
    Expand,
    Decimal,
    Sign,
}

/// All words, in the order in which they are told.
const WORDS: &[Word] = &[
    Word::Help,
    Word::Pool,
    Word::Dump,
    Word::Names,
    Word::Forget,
    Word::After,
    Word::Layout,
    Word::Latex,
    Word::Draw,
    Word::Diff,
    Word::Solve,
    Word::Roots,
    Word::Expand,
    Word::Decimal,
    Word::Sign,
];

/// The blanks before a summary where there is neither word nor form.
const BLANKS: &[u8] = b"                  ";

impl Word {
    /// All words, in the order in which they are told.
    pub fn all() -> &'static [Word]
        ensures { result.now ≡ all_words }
    {
        WORDS
    }

    /// The word that these bytes are.
    pub fn read(bytes: &[u8]) -> Option<Word>
        ensures { result ≡ word_of bytes.now }
    {
        first_among(Word::all(), bytes)
    }

    /// The word as it is typed.
    pub fn bytes(self) -> &'static [u8]
        ensures value { result.now ≡ word_bytes self }
        ensures short { length result.now ≤ 7 }
    {
        match self {
            Word::Help => b"help",
            Word::Pool => b"pool",
            Word::Dump => b"dump",
            Word::Names => b"names",
            Word::Forget => b"forget",
            Word::After => b"after",
            Word::Layout => b"layout",
            Word::Latex => b"latex",
            Word::Draw => b"draw",
            Word::Diff => b"diff",
            Word::Solve => b"solve",
            Word::Roots => b"roots",
            Word::Expand => b"expand",
            Word::Decimal => b"decimal",
            Word::Sign => b"sign",
        }
    }

    /// What stands behind it in a command.
    pub fn form(self) -> &'static [u8]
        ensures value { result.now ≡ form_of self }
        ensures short { length result.now ≤ 11 }
    {
        match self {
            Word::Help => b" [WORD]",
            Word::Forget => b" X",
            Word::After => b" K",
            Word::Diff => b" X LINE",
            Word::Solve => b" EQUATIONS",
            Word::Roots => b" X EQUATION",
            Word::Expand => b" LINE",
            Word::Decimal => b" N LINE",
            Word::Sign => b" LINE",
            _ => b"",
        }
    }

    /// What the command does.
    pub fn summary(self) -> &'static [u8]
        ensures value { result.now ≡ summary_of self }
        ensures short { length result.now ≤ 60 }
    {
        match self {
            Word::Help => b"these lines, or that of a word with an example",
            Word::Pool => b"how full the pool is",
            Word::Dump => b"the bytes of the pool",
            Word::Names => b"what is stored, in lines that store it again",
            Word::Forget => b"what is stored under the name X is forgotten",
            Word::After => b"a line is interrupted after K nodes",
            Word::Layout => b"the layout of the last answer in one line",
            Word::Latex => b"the last answer as LaTeX",
            Word::Draw => b"the picture of the last answer",
            Word::Diff => b"the derivative of the line with respect to the name X",
            Word::Solve => b"the values of the names in linear equations",
            Word::Roots => b"all roots of a polynomial equation in the name X",
            Word::Expand => b"the line as a sum of multiples of products of names",
            Word::Decimal => b"the nearest decimal of the line with N places, at most 38",
            Word::Sign => b"whether the line is positive, negative or zero",
        }
    }

    /// Lines that use the command, with `;` between them.
    pub fn example(self) -> &'static [u8]
        ensures value { result.now ≡ example_of self }
        ensures short { length result.now ≤ 60 }
    {
        match self {
            Word::Help => b":help diff",
            Word::Pool => b":pool",
            Word::Dump => b":dump",
            Word::Names => b"5->x ; :names",
            Word::Forget => b"5->x ; :forget x",
            Word::After => b":after 3 ; 1+2+3",
            Word::Layout => b"x/2 ; :layout",
            Word::Latex => b"x/2 ; :latex",
            Word::Draw => b"x/2 ; :draw",
            Word::Diff => b":diff x x^3/3",
            Word::Solve => b":solve x+y=3;x-y=1",
            Word::Roots => b":roots x x^2=x+1",
            Word::Expand => b":expand (x+y)^2",
            Word::Decimal => b":decimal 4 sqrt(2)+sqrt(3)",
            Word::Sign => b":sign sqrt(2)-3/2",
        }
    }

    /// Blanks from the end of its form to the column where all summaries begin.
    pub(crate) fn padding(self) -> &'static [u8]
        ensures value { result.now ≡ padding_of self }
        ensures short { length result.now ≤ 18 }
    {
        &BLANKS[self.bytes().len() + self.form().len()..]
    }
}

/// The first of the words that is typed so.
fn first_among(words: &[Word], bytes: &[u8]) -> Option<Word>
    ensures { result ≡ word_among words.now bytes.now }
{
    for word in words {
        if word.bytes() == bytes {
            return Some(*word);
        }
    }
    None
}
