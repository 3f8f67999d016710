//! Laws of lines and of whole sessions: what answers mean, and when there is one.
#![tactic(auto)]

mod laws;

pub use laws::{
    a_number_typed_again, answers_become_the_last, answers_depend_on_the_line,
    answers_mean_their_lines, circular_lines_hold_their_name, decimals_are_calculated,
    decimals_are_told, decimals_mean_what_they_say, derivatives_are_calculated,
    derivatives_are_told, derivatives_mean_the_slope, expansions_are_calculated,
    expansions_mean_what_they_say, held_along_chains, linear_equations_are_solved,
    lines_are_answered, lines_that_read_are_evaluated, lines_with_room_are_never_full,
    one_value_has_one_text, other_trees_are_not_expanded, pictures_depend_on_the_answer,
    polynomials_are_expanded, roots_mean_what_they_say, same_coefficients_same_text,
    sessions_answer_their_lines, sessions_hold_no_small_tree, sessions_with_room_are_never_full,
    signs_mean_what_they_say, solutions_are_calculated, solutions_mean_what_they_say,
    told_names_are_stored_again, told_stores_mean_the_same, undecided_decimals_have_two_roots,
    undef_has_no_meaning, words_ask_for_options,
};
