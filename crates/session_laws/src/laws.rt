//! Laws of lines and of whole sessions, each the contract of a function without a body.
ghost use Rattle.std.specs.Prelude.{◌≡◌, ◌≢◌, ◌≤◌, ◌+◌, ◌↔◌, ◌⊎◌, ℕ, List, [], Err, None, Some, Option, Contains, length, Ok, true, false};
ghost use Rattle.breakers.specs.Breakers.{TripsWithin as TripsIn};
ghost use Rattle.breakers.specs.State.{State as Breaker};
ghost use Rattle.calc_algebra.specs.BadAndEasy.{IsEasy};
ghost use Rattle.calc_algebra.specs.Numbers.{is_number, value};
ghost use Rattle.calc_algebra.specs.Rewritings.{Reduces};
ghost use Rattle.calc_commands.specs.Commands.{IsCommandLine, decimals, diff, expand, layout, roots, sign, solve};
ghost use Rattle.calc_language.specs.Reads.{Stores};
ghost use Rattle.calc_language.specs.Texts.{text};
ghost use Rattle.calc_measures.specs.Measures.{bits as bits_of, room as room_of};
ghost use Rattle.calc_session.specs.Arguments.{ReadsText, bytes_before};
ghost use Rattle.calc_session.specs.Calculating.{IsReplyToExpression, made_in};
ghost use Rattle.calc_session.specs.Deriving.{IsReplyToDerivative};
ghost use Rattle.calc_session.specs.Drawing.{rows_in};
ghost use Rattle.calc_session.specs.Estimating.{IsReplyToDecimal, IsReplyToSign};
ghost use Rattle.calc_session.specs.Expanding.{IsReplyToExpansion, expansion_text};
ghost use Rattle.calc_session.specs.Forms.{form_room};
ghost use Rattle.calc_session.specs.Naming.{store_line, store_lines};
ghost use Rattle.calc_session.specs.Reading.{ReadsTree};
ghost use Rattle.calc_session.specs.Replies.{Reply, circular, full, no_decimal, not_polynomial, refused, report, shown, stored, text_of, undecided, undefined};
ghost use Rattle.calc_session.specs.SolutionsMeant.{AsksToSolve, TellsSolutionsOf};
ghost use Rattle.calc_session.specs.Solving.{IsReplyToEquations, first_not_linear};
ghost use Rattle.calc_session.specs.States.{State, first_state, free_bytes, trees};
ghost use Rattle.calc_session.specs.Steps.{IsReply, IsReplyToTree, Step};
ghost use Rattle.calc_terms.specs.Limits.{bits_limit, depth_limit};
ghost use Rattle.calc_terms.specs.Trees.{Tree, depth, names, nodes, size, undef};
ghost use Rattle.calc_tokens.specs.Limits.{line_limit};
ghost use Rattle.calc_tokens.specs.Placed.{Placed};
ghost use Rattle.dual_diff.specs.Derivatives.{HasDerivative, derivative};
ghost use Rattle.expansions.specs.ExpansionRoom.{expansion_room};
ghost use Rattle.expansions.specs.PolynomialTrees.{is_polynomial};
ghost use Rattle.linear_solve.specs.Equations.{Equation, nodes_of_sides};
ghost use Rattle.linear_solve.specs.Fitting.{Misfit};
ghost use Rattle.linear_solve.specs.RisingNames.{AreNamesOf};
ghost use Rattle.linear_solve.specs.Solving.{solving};
ghost use Rattle.name_table.specs.Filling.{LacksNames, NamedTree, fills, depth_limit};
ghost use Rattle.name_table.specs.Held.{IsHeld};
ghost use Rattle.name_table.specs.Tables.{table_names};
ghost use Rattle.node_pool.specs.declared.full.Full.{Full};
ghost use Rattle.poincare_run.specs.Beginnings.{first_moment};
ghost use Rattle.poincare_run.specs.Options.{options_of};
ghost use Rattle.poincare_run.specs.Settings.{OptionsAreAsked, OrderIsFree};
ghost use Rattle.poincare_run.specs.Steps.{Chain, LineStep, Moment, Turn};
ghost use Rattle.poincare_run.specs.declared.words.Options.{Options};
ghost use Rattle.reduce_port.specs.Bounds.{MayExceed};
ghost use Rattle.reduce_port.specs.Checks.{TripsWithin};
ghost use Rattle.enclosures.specs.Rounding.{count_roots};
ghost use Rattle.session_laws.specs.Decided.{HasPlainValue, HasSmallRoots, IsSettled, ShowsSmallRoots, last_answer};
ghost use Rattle.session_laws.specs.DecimalsMeant.{HasNumber, TellsDecimalOf, TellsSignOf};
ghost use Rattle.session_laws.specs.Enough.{HasBytesFor, HoldsNoSmallTree, IsAnswered, ReadsFilled};
ghost use Rattle.session_laws.specs.ExpansionsMeant.{AsksExpansionOf, HaveSameCoefficients, TellsExpansion};
ghost use Rattle.session_laws.specs.Meant.{HasNoMeaning, HasSmallRadicands, MeanTheSame, MeansNothing, ShowsMeaning};
ghost use Rattle.session_laws.specs.RootsMeant.{TellsRootsOf};
ghost use Rattle.session_laws.specs.Slopes.{TellsDerivative};
ghost use Rattle.session_laws.specs.StoredAgain.{AreStoredAgain, AreStores, IsStoredAgain, ReadAsStores, stored_in};

/// What is reduced to Undef means nothing.
pub fn undef_has_no_meaning()
    ensures { (t : Tree) → Reduces t undef → MeansNothing t }
{}

/// What is shown or stored for a line means what the line means once its names are replaced, and `undef` is the
/// answer only to lines that mean nothing then.
pub fn answers_mean_their_lines()
    ensures shown { (room bits : Option (Tree → ℕ)) (old : State) (before after : List Breaker) (line : List ℕ) (t : Tree)
        → IsReply room bits old before after line (shown t) → ShowsMeaning old line t }
    ensures stored { (room bits : Option (Tree → ℕ)) (old : State) (before after : List Breaker) (line : List ℕ) (t : Tree) (x : List ℕ)
        → IsReply room bits old before after line (stored t x) → ShowsMeaning old line t }
    ensures undefined { (room bits : Option (Tree → ℕ)) (old : State) (before after : List Breaker) (line : List ℕ)
        → IsReply room bits old before after line undefined → HasNoMeaning old line }
{}

/// Two lines of which it is known that they have a value, and the same one, are shown alike where each radicand is
/// below 10^12.
pub fn one_value_has_one_text()
    ensures { (a b : State) (line other : List ℕ) (t u : Tree) (p : ShowsMeaning a line t) (q : ShowsMeaning b other u)
        → IsEasy p.tree → IsEasy q.tree → MeanTheSame p.tree q.tree → HasSmallRadicands p.answer → HasSmallRadicands q.answer → text t ≡ text u }
{}

/// The text of a Number, typed again as a line in any session, is answered by a tree where it is answered, and by itself where
/// each root that is shown is one of a number below 10^12.
pub fn a_number_typed_again()
    ensures a_tree { (room bits : Option (Tree → ℕ)) (a b : State) (before after : List Breaker) (line : List ℕ) (t : Tree) (reply : Reply) (p : ShowsMeaning a line t)
        → is_number p.answer ≡ true → IsReply room bits b before after (text t) reply → IsAnswered reply → (u : Tree) × (reply ≡ shown u) }
    ensures itself { (room bits : Option (Tree → ℕ)) (a b : State) (before after : List Breaker) (line : List ℕ) (t : Tree) (reply : Reply) (p : ShowsMeaning a line t)
        → is_number p.answer ≡ true → IsReply room bits b before after (text t) reply → IsAnswered reply → HasSmallRoots t → ShowsSmallRoots reply → reply ≡ shown t }
{}

/// Two lines, perhaps in two sessions with other pools, identifiers, breakers and earlier lines, that become the same tree have the
/// same text: where the tree has a plain value, where it is known whether it has a value and each root that is shown is one of a
/// number below 10^12, and where solutions or an expansion are told.
pub fn answers_depend_on_the_line()
    ensures plain { (room bits : Option (Tree → ℕ)) (a b : State) (before after first last : List Breaker) (line other : List ℕ) (store name : Option (List ℕ)) (t : Tree) (reply also : Reply)
        → ReadsFilled a line store t → ReadsFilled b other name t → HasPlainValue t
        → IsReply room bits a before after line reply → IsReply room bits b first last other also → IsSettled reply → IsSettled also → text_of reply ≡ text_of also }
    ensures valued { (room bits : Option (Tree → ℕ)) (a b : State) (before after first last : List Breaker) (line other : List ℕ) (store name : Option (List ℕ)) (t : Tree) (reply also : Reply)
        → ReadsFilled a line store t → ReadsFilled b other name t → IsEasy t → IsReply room bits a before after line reply → IsReply room bits b first last other also
        → IsAnswered reply → IsAnswered also → ShowsSmallRoots reply → ShowsSmallRoots also → text_of reply ≡ text_of also }
    ensures solutions { (room bits : Option (Tree → ℕ)) (a b : State) (before after first last : List Breaker) (line other told also : List ℕ) (es : List Equation)
        → AsksToSolve a line es → AsksToSolve b other es
        → IsReply room bits a before after line (report told) → IsReply room bits b first last other (report also) → told ≡ also }
    ensures expansions { (room bits : Option (Tree → ℕ)) (a b : State) (before after first last : List Breaker) (line other told also : List ℕ) (t : Tree)
        → AsksExpansionOf a line t → AsksExpansionOf b other t
        → IsReply room bits a before after line (report told) → IsReply room bits b first last other (report also) → told ≡ also }
{}

/// A tree that is shown or stored is the last answer then.
pub fn answers_become_the_last()
    ensures shown { (room bits : Option (Tree → ℕ)) (old new : State) (before after : List Breaker) (line : List ℕ) (t : Tree)
        → Step room bits old before line (shown t) new after → last_answer new ≡ t }
    ensures stored { (room bits : Option (Tree → ℕ)) (old new : State) (before after : List Breaker) (line : List ℕ) (t : Tree) (x : List ℕ)
        → Step room bits old before line (stored t x) new after → last_answer new ≡ t }
{}

/// Two sessions with the same last answer tell the same layout and draw the same picture, where each finds room.
pub fn pictures_depend_on_the_answer()
    ensures layouts { (room bits : Option (Tree → ℕ)) (a b : State) (before after first last : List Breaker) (line other told also : List ℕ)
        → IsCommandLine line layout → IsCommandLine other layout → last_answer a ≡ last_answer b
        → IsReply room bits a before after line (report told) → IsReply room bits b first last other (report also) → told ≡ also }
    ensures pictures { (a b : State) (rows others : List ℕ) → last_answer a ≡ last_answer b → rows_in a ≡ Ok rows → rows_in b ≡ Ok others → rows ≡ others }
{}

/// A line that reads as a tree whose name can be stored is answered by what the tree comes to, and by nothing else: what
/// is built and filled finds no room or is too deep, or the filled tree's reduction is interrupted, overflows or finds no
/// room by its cause, or there is an answer.
pub fn lines_that_read_are_evaluated()
    ensures { (room bits : Option (Tree → ℕ)) (old : State) (before after : List Breaker) (line : List ℕ) (reply : Reply) (tokens : List Placed) (store : Option (List ℕ)) (t : Tree)
        → ReadsTree old.table line tokens store t → IsReply room bits old before after line reply
        → IsReplyToTree room bits old before after store t reply }
{}

/// A line is not refused for the pool where the bytes are free in which its tree is built and its names are replaced, and the
/// reducer's room of what it becomes does not exceed the free bytes.
pub fn lines_with_room_are_never_full()
    ensures { (room bits : Option (Tree → ℕ)) (old : State) (before after : List Breaker) (line : List ℕ) (reply : Reply) (store : Option (List ℕ)) (t : Tree)
        → ReadsFilled old line store t → HasBytesFor old t → ¬ (MayExceed room t (free_bytes old))
        → IsReply room bits old before after line reply → (refusal : Full) → reply ≢ refused (full refusal) }
{}

/// The pool of a session holds exactly the stored trees, each as often as entries of the table hold it: at its beginning, after each
/// line that is answered in such a state, and so after all lines of a session that words ask for.
pub fn held_along_chains()
    ensures at_first { (size : ℕ) → IsHeld (first_state size).table (trees (first_state size)) }
    ensures behind_a_line { (room bits : Option (Tree → ℕ)) (old new : State) (before after : List Breaker) (line : List ℕ) (reply : Reply)
        → IsHeld old.table (trees old) → Step room bits old before line reply new after → IsHeld new.table (trees new) }
    ensures along { (old new : Moment) (lines : List (List ℕ)) (turns : List Turn)
        → IsHeld old.state.table (trees old.state) → Chain old lines turns new → IsHeld new.state.table (trees new.state) }
    ensures from_words { (words : List (List ℕ)) (options : Options) (breakers : List Breaker) (lines : List (List ℕ)) (turns : List Turn) (now : Moment)
        → options_of words ≡ Some options → Chain (first_moment options breakers) lines turns now → IsHeld now.state.table (trees now.state) }
{}

/// No session stores a tree that is smaller than the leaf of a name.
pub fn sessions_hold_no_small_tree()
    ensures at_first { (size : ℕ) → HoldsNoSmallTree (first_state size) }
    ensures behind_a_line { (room bits : Option (Tree → ℕ)) (old new : State) (before after : List Breaker) (line : List ℕ) (reply : Reply)
        → IsHeld old.table (trees old) → HoldsNoSmallTree old → Step room bits old before line reply new after → HoldsNoSmallTree new }
{}

/// A line is answered where what it becomes is at most 64 deep, has bytes and room, takes at most 124 bits, and no breaker trips
/// in as many checks as it has nodes: a tree is shown or stored, or the line is undefined, unless it is circular.
pub fn lines_are_answered()
    ensures { (room bits : Option (Tree → ℕ)) (old : State) (before after : List Breaker) (line : List ℕ) (reply : Reply) (store : Option (List ℕ)) (t : Tree)
        → ReadsFilled old line store t → depth t ≤ depth_limit → HasBytesFor old t
        → ¬ (MayExceed room t (free_bytes old)) → ¬ (MayExceed bits t bits_limit) → ((place : ℕ) → ¬ (TripsWithin (nodes t) before after place))
        → ((x : List ℕ) → reply ≢ refused (circular x)) → IsReply room bits old before after line reply → IsAnswered reply }
{}

/// Only a store is circular, and only where what the line becomes holds the name.
pub fn circular_lines_hold_their_name()
    ensures { (room bits : Option (Tree → ℕ)) (old : State) (before after : List Breaker) (line x : List ℕ) (store : Option (List ℕ)) (t : Tree)
        → ReadsFilled old line store t → IsReply room bits old before after line (refused (circular x)) → (store ≡ Some x) × Contains (names t) x }
{}

/// What is told of a line that asks for a derivative is the slope of what the line becomes: for all pairs of a value and a
/// slope that this has under an assignment, the printed expression means the slope there, and `undef` is told only where it
/// has none under any.
pub fn derivatives_mean_the_slope()
    ensures { (room bits : Option (Tree → ℕ)) (old : State) (before after : List Breaker) (line x text told : List ℕ)
        → IsCommandLine line (diff x text) → IsReply room bits old before after line (report told) → TellsDerivative old line x told }
{}

/// A line that asks for a derivative is answered by what is read, built, filled and derived, and by nothing else.
pub fn derivatives_are_calculated()
    ensures { (room bits : Option (Tree → ℕ)) (old : State) (before after : List Breaker) (line x text : List ℕ) (reply : Reply)
        → length line ≤ line_limit → IsCommandLine line (diff x text) → IsReply room bits old before after line reply
        → IsReplyToExpression old before after (bytes_before line text) text (IsReplyToDerivative room bits (free_bytes old) before after x) reply }
{}

/// A derivative is told where the text is read and filled, what it becomes has one, both fit into the bytes that were free,
/// neither room nor bits are exceeded, and no breaker trips.
pub fn derivatives_are_told()
    ensures { (room bits : Option (Tree → ℕ)) (old : State) (before after : List Breaker) (line x text : List ℕ) (reply : Reply) (tokens : List Placed) (tree t : Tree) (left : ℕ)
        → length line ≤ line_limit → IsCommandLine line (diff x text) → ReadsText text tokens None tree → made_in old tree ≡ fills left t
        → HasDerivative x t → size t + size (derivative x t) ≤ free_bytes old
        → ¬ (MayExceed room (derivative x t) (free_bytes old)) → ¬ (MayExceed bits (derivative x t) bits_limit)
        → ((place : ℕ) → ¬ (TripsWithin (nodes (derivative x t)) before after place))
        → IsReply room bits old before after line reply → (told : List ℕ) × (reply ≡ report told) }
{}

/// What is told of a line that asks for solutions says which assignments solve the equations that the line becomes.
pub fn solutions_mean_what_they_say()
    ensures { (room bits : Option (Tree → ℕ)) (old : State) (before after : List Breaker) (line text told : List ℕ)
        → IsCommandLine line (solve text) → IsReply room bits old before after line (report told) → TellsSolutionsOf old line told }
{}

/// What is told of a line that asks for roots says which fractions make both sides mean the same, and by which factoring.
pub fn roots_mean_what_they_say()
    ensures { (room bits : Option (Tree → ℕ)) (old : State) (before after : List Breaker) (line x text told : List ℕ)
        → IsCommandLine line (roots x text) → IsReply room bits old before after line (report told) → TellsRootsOf old line x told }
{}

/// A line that asks for solutions is answered by what is split, read, built, filled and solved, and by nothing else.
pub fn solutions_are_calculated()
    ensures { (room bits : Option (Tree → ℕ)) (old : State) (before after : List Breaker) (line text : List ℕ) (reply : Reply)
        → length line ≤ line_limit → IsCommandLine line (solve text) → IsReply room bits old before after line reply
        → IsReplyToEquations old before after (bytes_before line text) text reply }
{}

/// Solutions are told where the equations are read and their sides find room, they are linear and have at most six
/// names, each operation fits, the bytes of a form and its face are free, and no breaker trips.
pub fn linear_equations_are_solved()
    ensures { (room bits : Option (Tree → ℕ)) (old : State) (before after : List Breaker) (line : List ℕ) (reply : Reply) (es : List Equation) (xs : List (List ℕ))
        → length line ≤ line_limit → AsksToSolve old line es → AreNamesOf es xs → length xs ≤ 6 → first_not_linear es ≡ None
        → ((m : Misfit) → ¬ (solving xs es ≡ Err m)) → form_room ≤ free_bytes old
        → ((place : ℕ) → ¬ (TripsIn (nodes_of_sides es + length xs) before after place))
        → IsReply room bits old before after line reply → (told : List ℕ) × (reply ≡ report told) }
{}

/// What is told of a line that asks for an expansion is the text of the face of the expanded tree of what the line becomes, and
/// both trees have every meaning of that.
pub fn expansions_mean_what_they_say()
    ensures { (room bits : Option (Tree → ℕ)) (old : State) (before after : List Breaker) (line text told : List ℕ)
        → IsCommandLine line (expand text) → IsReply room bits old before after line (report told) → TellsExpansion old line told }
{}

/// A line that asks for an expansion is answered by what is read, built, filled and expanded, and by nothing else.
pub fn expansions_are_calculated()
    ensures { (room bits : Option (Tree → ℕ)) (old : State) (before after : List Breaker) (line text : List ℕ) (reply : Reply)
        → length line ≤ line_limit → IsCommandLine line (expand text) → IsReply room bits old before after line reply
        → IsReplyToExpression old before after (bytes_before line text) text (IsReplyToExpansion (free_bytes old) before after) reply }
{}

/// Of two lines, perhaps in two states, the same text is told where what they become has the same coefficients and an expansion
/// is told of both.
pub fn same_coefficients_same_text()
    ensures { (room bits : Option (Tree → ℕ)) (a b : State) (before after first last : List Breaker) (line other told also : List ℕ) (t u : Tree)
        → AsksExpansionOf a line t → AsksExpansionOf b other u → HaveSameCoefficients t u
        → IsReply room bits a before after line (report told) → IsReply room bits b first last other (report also) → told ≡ also }
{}

/// A line that asks for an expansion is refused as no polynomial exactly where what it becomes is none.
pub fn other_trees_are_not_expanded()
    ensures { (room bits : Option (Tree → ℕ)) (old : State) (before after : List Breaker) (line : List ℕ) (reply : Reply) (t : Tree)
        → length line ≤ line_limit → AsksExpansionOf old line t → IsReply room bits old before after line reply
        → (reply ≡ refused not_polynomial) ↔ (is_polynomial t ≡ false) }
{}

/// An expansion is told where what the line becomes is a polynomial of at most 124 bits, the room of its expansion does not
/// exceed the bytes that were free, and no breaker trips.
pub fn polynomials_are_expanded()
    ensures { (room bits : Option (Tree → ℕ)) (old : State) (before after : List Breaker) (line : List ℕ) (reply : Reply) (t : Tree)
        → length line ≤ line_limit → AsksExpansionOf old line t → is_polynomial t ≡ true → bits_of t ≤ bits_limit → expansion_room t ≤ free_bytes old
        → ((place : ℕ) → ¬ (TripsWithin (nodes t) before after place))
        → IsReply room bits old before after line reply → reply ≡ report (expansion_text t) }
{}

/// What is told of a line that asks for a decimal is that of a Number whose value is each meaning of what the line becomes, or
/// `undef` where this has none.
pub fn decimals_mean_what_they_say()
    ensures { (room bits : Option (Tree → ℕ)) (old : State) (before after : List Breaker) (line text told : List ℕ) (places : ℕ)
        → IsCommandLine line (decimals places text) → IsReply room bits old before after line (report told) → TellsDecimalOf old text places told }
{}

/// The same of a line that asks for a sign.
pub fn signs_mean_what_they_say()
    ensures { (room bits : Option (Tree → ℕ)) (old : State) (before after : List Breaker) (line text told : List ℕ)
        → IsCommandLine line (sign text) → IsReply room bits old before after line (report told) → TellsSignOf old text told }
{}

/// A line that asks for a decimal or a sign is answered by what is read, built, filled, reduced and told, and by nothing else.
pub fn decimals_are_calculated()
    ensures decimals { (room bits : Option (Tree → ℕ)) (old : State) (before after : List Breaker) (line text : List ℕ) (places : ℕ) (reply : Reply)
        → length line ≤ line_limit → IsCommandLine line (decimals places text) → IsReply room bits old before after line reply
        → IsReplyToExpression old before after (bytes_before line text) text (IsReplyToDecimal room bits places (free_bytes old) before after) reply }
    ensures signs { (room bits : Option (Tree → ℕ)) (old : State) (before after : List Breaker) (line text : List ℕ) (reply : Reply)
        → length line ≤ line_limit → IsCommandLine line (sign text) → IsReply room bits old before after line reply
        → IsReplyToExpression old before after (bytes_before line text) text (IsReplyToSign room bits (free_bytes old) before after) reply }
{}

/// Where the text is read and filled, neither room nor bits are exceeded, and no breaker trips, a decimal or `undef` is told, or
/// it is refused as no decimal or as undecided.
pub fn decimals_are_told()
    ensures { (room bits : Option (Tree → ℕ)) (old : State) (before after : List Breaker) (line text : List ℕ) (places : ℕ) (reply : Reply) (tokens : List Placed) (tree t : Tree) (left : ℕ)
        → length line ≤ line_limit → IsCommandLine line (decimals places text) → ReadsText text tokens None tree → made_in old tree ≡ fills left t
        → ¬ (MayExceed room t (free_bytes old)) → ¬ (MayExceed bits t bits_limit) → ((place : ℕ) → ¬ (TripsWithin (nodes t) before after place))
        → IsReply room bits old before after line reply → ((told : List ℕ) × (reply ≡ report told)) ⊎ (reply ≡ refused no_decimal) ⊎ (reply ≡ refused undecided) }
{}

/// A decimal is undecided only for a Number of two roots and more.
pub fn undecided_decimals_have_two_roots()
    ensures { (room bits : Option (Tree → ℕ)) (old : State) (before after : List Breaker) (line text : List ℕ) (places : ℕ)
        → length line ≤ line_limit → IsCommandLine line (decimals places text) → IsReply room bits old before after line (refused undecided)
        → (number : Tree) × HasNumber old text number × (2 ≤ count_roots (value number)) }
{}

/// Words have the options that they ask for: they spell settings, one after another and each option at most
/// once, whose values are numbers in range. Other words have none.
pub fn words_ask_for_options()
    ensures asked { OptionsAreAsked }
    ensures in_any_order { OrderIsFree }
{}

/// A session that the words ask for never refuses a line for the pool where the room of what the line becomes, once stored trees
/// are in the places of their names, is at most the bytes that are free at its start: whatever was answered before.
pub fn sessions_with_room_are_never_full()
    ensures { (words : List (List ℕ)) (options : Options) (breakers : List Breaker) (lines : List (List ℕ)) (turns : List Turn) (now next : Moment) (line : List ℕ) (reply : Reply) (store : Option (List ℕ)) (t : Tree)
        → options_of words ≡ Some options → Chain (first_moment options breakers) lines turns now → LineStep now line reply next
        → ReadsFilled now.state line store t → room_of t ≤ free_bytes now.state → (refusal : Full) → reply ≢ refused (full refusal) }
{}

/// Where what the line becomes is at most 64 deep and has at most 124 bits, too, and no breaker trips in as many checks as it has
/// nodes, the line is answered: a tree is shown or stored, or the line is undefined, unless it is circular.
pub fn sessions_answer_their_lines()
    ensures { (words : List (List ℕ)) (options : Options) (breakers : List Breaker) (lines : List (List ℕ)) (turns : List Turn) (now next : Moment) (line : List ℕ) (reply : Reply) (store : Option (List ℕ)) (t : Tree) (step : LineStep now line reply next)
        → options_of words ≡ Some options → Chain (first_moment options breakers) lines turns now
        → ReadsFilled now.state line store t → depth t ≤ depth_limit → room_of t ≤ free_bytes now.state → bits_of t ≤ 124
        → ((place : ℕ) → ¬ (TripsWithin (nodes t) now.breakers step.checked place)) → ((x : List ℕ) → reply ≢ refused (circular x)) → IsAnswered reply }
{}

/// A line of `:names`, whose text reads as the tree and its name, is answered where no name of the table is in the tree: what is
/// stored then is stored under that name and has every meaning of the tree.
pub fn told_stores_mean_the_same()
    ensures { (room bits : Option (Tree → ℕ)) (old : State) (before after : List Breaker) (v : NamedTree) (t : Tree) (x : List ℕ)
        → Stores (store_line v) v.tree v.name → LacksNames (table_names old.table) v.tree
        → IsReply room bits old before after (store_line v) (stored t x) → IsStoredAgain v t x }
{}

/// Each line that `:names` tells reads as a store of a tree under its name. Where a session in which nothing is stored answers these lines
/// in their order, each by a store, it holds the same names in the same order afterwards, each with a tree that has every meaning
/// of the former one.
pub fn told_names_are_stored_again()
    ensures read { (words : List (List ℕ)) (options : Options) (breakers : List Breaker) (lines : List (List ℕ)) (turns : List Turn) (now : Moment)
        → options_of words ≡ Some options → Chain (first_moment options breakers) lines turns now → ReadAsStores (stored_in now.state) }
    ensures again { (words : List (List ℕ)) (options : Options) (breakers : List Breaker) (lines : List (List ℕ)) (turns : List Turn) (now : Moment)
        → options_of words ≡ Some options → Chain (first_moment options breakers) lines turns now
        → (start end : Moment) (stores : List Turn) → IsHeld start.state.table (trees start.state) → start.state.table.stored ≡ []
        → Chain start (store_lines (trees now.state) now.state.table.stored) stores end → AreStores stores
        → AreStoredAgain (stored_in now.state) (stored_in end.state) }
{}
