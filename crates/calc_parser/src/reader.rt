//! A sum read token by token.
ghost use Rattle.std.specs.Prelude.{◌≡◌, ◌<◌, ◌≤◌, ◌+◌, ℕ, List, ◌∷◌, ◌++◌, length, map, MatchResult, OnOk, OnErr, Some, None};
ghost use Rattle.std.specs.Option.{option_map};
ghost use Rattle.calc_language.specs.Tokens.{Token as Mark};
ghost use Rattle.calc_terms.specs.Trees.{Tree};
ghost use Rattle.calc_language.specs.Grammar.{IsSum};
ghost use Rattle.calc_tokens.specs.Tokens.{token_of};
ghost use Rattle.calc_parser.specs.Postfix.{postfix as postfix_of, step_limit};
ghost use Rattle.calc_parser.specs.Automaton.{state, ended, gathered, complete as completed_all, end_part, end_powers as powers_ended, end_product as product_ended, sum_nodes, minus_in as sign_in, begin_operand as operand_begun, at_operand, at_parenthesis, at_operator, leave_parentheses as parentheses_left, step, finish as finished, start};
ghost use Rattle.calc_parser.specs.Reader.{open_in, innermost, innermost_completed, innermost_place, node_of, nodes_in, state_in, ended_in, room_in, steps_in, token_in, tokens_in, IsStep};
ghost use Rattle.calc_tokens.specs.Limits.{line_limit};

use crate::nesting::{Level, Nesting, Open, Place};
use crate::postfix::{Postfix, Step};
use calc_terms::Kind;
use calc_tokens::{Token, What};

/// What may come next.
#[derive(Clone, Copy)]
pub(crate) enum Expects {
    /// An operand, or a minus sign.
    Operand,
    /// The `(` behind a root sign.
    Parenthesis,
    /// What goes on behind an operand, or the end.
    Operator,
}

/// The tokens are no sum.
#[derive(Clone, Copy)]
pub(crate) struct NoSum;

/// A sum as far as it was read: the nodes that are whole, and what is still open.
#[derive(Drop)]
pub(crate) struct Reader {
    expects: Expects,
    nesting: Nesting,
    postfix: Postfix,
}

impl Reader {
    /// A reader to which no token has come.
    pub(crate) fn new() -> Reader
        ensures state { (ts : List Mark) → state_in ts result ≡ start }
        ensures room { room_in result ≡ 0 }
    {
        Reader {
            expects: Expects::Operand,
            nesting: Nesting::none(),
            postfix: Postfix::none(),
        }
    }

    /// Reads tokens that are a sum, in place of those that it read before. The nodes of its tree are then whole, by the places
    /// of their tokens, whatever may stand behind these.
    pub(crate) fn read(&mut self, tokens: &[Token]) -> Result<(), NoSum>
        requires few { length tokens.now ≤ line_limit }
        ensures sum { OnOk result ((t : Tree) × IsSum (tokens_in tokens.now) t
            × ((behind : List Mark) → nodes_in (tokens_in tokens.now ++ behind) self.new.postfix ≡ postfix_of t)) }
        ensures no_sum { OnErr result ((t : Tree) → IsSum (tokens_in tokens.now) t → ⊥) }
    {
        self.clear();
        for (at, token) in tokens.iter().enumerate() {
            self.take(at as u16, token.what)?;
        }
        self.finish()
    }

    /// Forgets all tokens that came.
    fn clear(&mut self)
        ensures state { (ts : List Mark) → state_in ts self.new ≡ start }
        ensures room { room_in self.new ≡ 0 }
    {
        self.expects = Expects::Operand;
        self.nesting.clear();
        self.postfix.clear();
    }

    /// The nodes that are whole.
    pub(crate) fn steps(&self) -> &[Step]
        ensures steps { result.now ≡ steps_in self.now.postfix }
        ensures fits { length result.now ≤ step_limit }
    {
        self.postfix.steps()
    }

    /// Reads the token at this place.
    #[tactic(auto, using(std::proofs::lemmas::Grind::common_steps, crate::proofs::Finishes::operand_step, crate::proofs::Finishes::operator_step))]
    fn take(&mut self, at: u16, what: What) -> Result<(), NoSum>
        requires { room_in self.old + 2 ≤ step_limit }
        ensures step { (ts : List Mark) → token_in ts at ≡ token_of what → IsStep result (state_in ts self.new) (step (state_in ts self.old) (token_of what)) }
        ensures room { OnOk result (room_in self.new ≤ room_in self.old + 2) }
    {
        match self.expects {
            Expects::Operand => self.take_operand(at, what),
            Expects::Parenthesis => self.take_parenthesis(what),
            Expects::Operator => self.take_operator(at, what),
        }
    }

    /// Ends the whole sum, where nothing is open.
    #[tactic(auto, using(crate::proofs::Finishes::not_finished))]
    fn finish(&mut self) -> Result<(), NoSum>
        requires { room_in self.old ≤ step_limit }
        ensures { (ts : List Mark) → MatchResult result (λ _. finished (state_in ts self.old) ≡ Some (nodes_in ts self.new.postfix)) (λ _. finished (state_in ts self.old) ≡ None) }
    {
        match self.expects {
            Expects::Operand | Expects::Parenthesis => return Err(NoSum),
            Expects::Operator => {}
        }
        self.end_sum();
        match self.nesting.innermost() {
            None => Ok(()),
            Some(_) => Err(NoSum),
        }
    }

    fn take_operand(&mut self, at: u16, what: What) -> Result<(), NoSum>
        requires { room_in self.old < step_limit }
        ensures step { (ts : List Mark) → token_in ts at ≡ token_of what →
            IsStep result (state_in ts self.new) (at_operand (token_of what) (open_in self.old.nesting) (nodes_in ts self.old.postfix)) }
        ensures room { room_in self.new ≤ room_in self.old + 1 }
    {
        match what {
            What::Minus => {
                let minus = minus_in(self.nesting.innermost());
                self.enter(minus);
                Ok(())
            }
            _ => self.begin_operand(at, what),
        }
    }

    fn begin_operand(&mut self, at: u16, what: What) -> Result<(), NoSum>
        requires { room_in self.old < step_limit }
        ensures step { (ts : List Mark) → token_in ts at ≡ token_of what →
            IsStep result (state_in ts self.new) (operand_begun (token_of what) (open_in self.old.nesting) (nodes_in ts self.old.postfix)) }
        ensures room { room_in self.new ≤ room_in self.old + 1 }
    {
        match what {
            What::Number(_) | What::Name(_) | What::Undef => {
                self.postfix.push(Step::Leaf(at));
                self.expects = Expects::Operator;
            }
            What::Left => self.enter(Open::Parentheses),
            What::Root => self.expects = Expects::Parenthesis,
            _ => return Err(NoSum),
        }
        Ok(())
    }

    fn take_parenthesis(&mut self, what: What) -> Result<(), NoSum>
        requires { room_in self.old < step_limit }
        ensures step { (ts : List Mark) →
            IsStep result (state_in ts self.new) (at_parenthesis (token_of what) (open_in self.old.nesting) (nodes_in ts self.old.postfix)) }
        ensures room { room_in self.new ≤ room_in self.old + 1 }
    {
        match what {
            What::Left => {
                self.enter(Open::Root);
                Ok(())
            }
            _ => Err(NoSum),
        }
    }

    fn take_operator(&mut self, at: u16, what: What) -> Result<(), NoSum>
        requires room { room_in self.old + 2 ≤ step_limit }
        requires expects { self.old.expects ≡ Expects.Operator }
        ensures step { (ts : List Mark) → token_in ts at ≡ token_of what →
            IsStep result (state_in ts self.new) (at_operator (token_of what) (open_in self.old.nesting) (nodes_in ts self.old.postfix)) }
        ensures room { OnOk result (room_in self.new ≤ room_in self.old + 2) }
    {
        match what {
            What::Caret => self.enter(Open::Power),
            What::Name(_) | What::Undef | What::Left | What::Root => {
                let powers = self.end(Level::Power);
                self.enter(Open::Joined(powers));
                return self.begin_operand(at, what);
            }
            What::Times => {
                let factors = self.end_powers();
                self.enter(Open::Product(factors));
            }
            What::Slash => {
                let factors = self.end_powers();
                self.gather(Kind::Mult, factors);
                self.enter(Open::Quotient);
            }
            What::Plus => {
                let terms = self.end_product();
                self.enter(Open::Sum(terms));
            }
            What::Minus => {
                self.end_sum();
                self.enter(Open::Difference);
            }
            What::Right => {
                self.end_sum();
                return self.leave_parentheses();
            }
            What::Number(_) | What::Arrow => return Err(NoSum),
        }
        Ok(())
    }

    /// Opens this; an operand comes next.
    #[tactic(auto, using(crate::proofs::Room::length_weight))]
    fn enter(&mut self, part: Open)
        requires { room_in self.old < step_limit }
        ensures nesting { open_in self.new.nesting ≡ part ∷ open_in self.old.nesting }
        ensures postfix { self.new.postfix ≡ self.old.postfix }
        ensures expects { self.new.expects ≡ Expects.Operand }
    {
        self.nesting.enter(part);
        self.expects = Expects::Operand;
    }

    fn leave_parentheses(&mut self) -> Result<(), NoSum>
        requires room { room_in self.old ≤ step_limit }
        requires expects { self.old.expects ≡ Expects.Operator }
        ensures step { (ts : List Mark) → IsStep result (state_in ts self.new) (parentheses_left (open_in self.old.nesting) (nodes_in ts self.old.postfix)) }
        ensures room { room_in self.new ≤ room_in self.old }
    {
        match self.nesting.innermost() {
            Some(Open::Parentheses) => self.nesting.leave(),
            Some(Open::Root) => {
                self.nesting.leave();
                self.postfix.push(Step::Node(Kind::Root, 1));
            }
            _ => return Err(NoSum),
        }
        Ok(())
    }

    /// Ends a sum.
    fn end_sum(&mut self)
        requires { room_in self.old ≤ step_limit }
        ensures ended { (ts : List Mark) → let e = product_ended (open_in self.old.nesting) (nodes_in ts self.old.postfix) in
            state_in ts self.new ≡ state self.old.expects e.nesting (sum_nodes e) }
        ensures expects { self.new.expects ≡ self.old.expects }
        ensures room { room_in self.new ≤ room_in self.old }
    {
        let terms = self.end_product();
        self.gather(Kind::Add, terms);
    }

    /// Ends a product, and says how many children its sum has with it.
    #[inline(always)]
    fn end_product(&mut self) -> u16
        requires { room_in self.old ≤ step_limit }
        ensures ended { (ts : List Mark) → ended_in ts self.new result ≡ product_ended (open_in self.old.nesting) (nodes_in ts self.old.postfix) }
        ensures expects { self.new.expects ≡ self.old.expects }
        ensures some { 1 ≤ result }
        ensures room { room_in self.new + result ≤ room_in self.old + 1 }
    {
        let factors = self.end_powers();
        self.gather(Kind::Mult, factors);
        self.end(Level::Term)
    }

    /// Ends powers that stand side by side, and says how many children their product has with them.
    #[inline(always)]
    fn end_powers(&mut self) -> u16
        requires { room_in self.old ≤ step_limit }
        ensures ended { (ts : List Mark) → ended_in ts self.new result ≡ powers_ended (open_in self.old.nesting) (nodes_in ts self.old.postfix) }
        ensures expects { self.new.expects ≡ self.old.expects }
        ensures some { 1 ≤ result }
        ensures room { room_in self.new + result ≤ room_in self.old + 1 }
    {
        let powers = self.end(Level::Power);
        self.gather(Kind::Mult, powers);
        self.end(Level::Factor)
    }

    /// Ends a part of this level, and says how many children stand side by side with it.
    #[inline(always)]
    fn end(&mut self, level: Level) -> u16
        requires { room_in self.old ≤ step_limit }
        ensures ended { (ts : List Mark) → ended_in ts self.new result ≡ end_part level (open_in self.old.nesting) (nodes_in ts self.old.postfix) }
        ensures expects { self.new.expects ≡ self.old.expects }
        ensures some { 1 ≤ result }
        ensures room { room_in self.new + result ≤ room_in self.old + 1 }
    {
        self.complete(level);
        match self.place(level) {
            Some(Place::Child(before)) => {
                self.nesting.leave();
                before + 1
            }
            Some(Place::Right(kind)) => {
                self.nesting.leave();
                self.postfix.push(Step::Node(kind, 2));
                1
            }
            None => 1,
        }
    }

    /// Where a part of this level stands in what was opened last.
    #[tactic(auto, using(crate::proofs::Steps::some_place))]
    fn place(&self, level: Level) -> Option<Place>
        ensures { result ≡ innermost_place level (open_in self.now.nesting) }
    {
        self.nesting.innermost()?.place(level)
    }

    /// Ends the powers and minus signs whose last part has ended.
    fn complete(&mut self, level: Level)
        requires { room_in self.old ≤ step_limit }
        ensures ended { (ts : List Mark) → (open_in self.new.nesting, nodes_in ts self.new.postfix)
            ≡ completed_all level (open_in self.old.nesting) (nodes_in ts self.old.postfix) }
        ensures expects { self.new.expects ≡ self.old.expects }
        ensures room { room_in self.new ≤ room_in self.old }
    {
        while let Some(node) = self.completed(level) {
            self.nesting.leave();
            self.postfix.push(node);
        }
    }

    /// The node that what was opened last makes with a part of this level.
    fn completed(&self, level: Level) -> Option<Step>
        ensures { (ts : List Mark) → option_map (node_of ts) result ≡ innermost_completed level (open_in self.now.nesting) }
    {
        self.nesting.innermost()?.completed(level)
    }

    /// Makes trees the children of a node, where there is not just one.
    fn gather(&mut self, kind: Kind, count: u16)
        requires some { 1 ≤ count }
        requires room { room_in self.old + count ≤ step_limit + 1 }
        ensures nodes { (ts : List Mark) → nodes_in ts self.new.postfix ≡ nodes_in ts self.old.postfix ++ gathered kind count }
        ensures nesting { self.new.nesting ≡ self.old.nesting }
        ensures expects { self.new.expects ≡ self.old.expects }
        ensures room { room_in self.new + 1 ≤ room_in self.old + count }
    {
        if count != 1 {
            self.postfix.push(Step::Node(kind, count));
        }
    }
}

/// A minus sign before what comes next.
fn minus_in(last: Option<Open>) -> Open
    ensures { (s : List Open) → last ≡ innermost s → result ≡ sign_in s }
{
    match last {
        Some(Open::Power | Open::NegatedExponent) => Open::NegatedExponent,
        Some(Open::Product(_) | Open::Quotient | Open::NegatedFactor) => Open::NegatedFactor,
        _ => Open::NegatedTerm,
    }
}
