//! The laws of runs, each the contract of a function with nothing in it. Their statements stand in
//! gb_machine, their proofs here.
#![tactic(auto)]

mod laws;

pub use laws::{
    absent_after_removal, absent_has_no_open_of_ap, absent_has_no_open_of_module,
    answered_by_its_responder, awaited_is_the_last, awaits_own_request, closing_leaves_none_open,
    counts_add_up, credits_add_up, drained_requests_come_to_an_end, endpoints_differ,
    ends_are_told, ends_at_most_once, every_end_has_its_cause, facts_of_runs, fetched_is_the_image, kept_is_the_image, labels_differ,
    laws_of_runs, names_name_requests, no_foreign_message, none_forgotten,
    none_left_means_all_in_use, nothing_left_after_removal, one_enumeration_request_then_restarts,
    one_item_a_number, open_is_live, opening_was_told, quiet_before_removal, remembered_for_one,
    remembered_while_live, removal_finds_none_open, removal_leaves_nothing_wired,
    replies_are_awaited, served_leaves_none, settles_are_deliveries, stale_requests_meet_low_level,
    unwired_has_no_open_of_far, wired_at_most_once, wired_by_its_request, wired_is_remembered,
    wired_means_routed, wired_once,
};
