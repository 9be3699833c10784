//! The laws of objects, histories and stores, each called once.

use object_trait::{
    LogEntry, checked_is_covered, fresh_is_sound, keeps_first, keeps_none, keeps_others,
    keeps_parts, opens_are_counted, opens_commute, parts_sort, sorts_equi, sorts_look,
    sound_after_apply, sound_after_commit, sound_after_strike, struck_log_is_legal, struck_part,
    untouched_shows_the_same, untouched_stays,
};
use serial_order::{
    allows_alike, answer_may_follow, beginners_after, blocker_is_held, busy_names_who_keeps,
    checked_headline, command_appends, commit_keeps_views, first_op_is_least, fresh_represents,
    headline, held_after, idle_is_closed, logs_are_counted, machine_may_apply, opens_after,
    operations_in_run, own_after, replay_runs, replays_join, represents_on, run_goes_on,
    run_is_history, sorts_into_commit_order, struck_view_is_legal, summary_after, survives_as_read,
    transactions_in_run, views_are_legal,
};
use store_laws::{
    answer_is_defined, answers_as_defined, asked_is_replayed, begin_moves, end_moves,
    has_what_is_struck, new_is_kept, op_moves, places_are_counted, places_are_few,
    places_are_inside, quiet_moves, rollback_moves, room_after, rows_are_counted, rows_are_few,
    rows_say_who_is_open, stays_kept, step_is_asked, types_stay,
};

#[test]
fn laws_are_called() {
    parts_sort::<LogEntry>();
    keeps_first::<LogEntry>();
    keeps_none::<LogEntry>();
    keeps_parts::<LogEntry>();
    keeps_others::<LogEntry>();
    struck_part::<LogEntry>();
    sorts_look::<LogEntry>();
    sorts_equi::<LogEntry>();
    checked_is_covered();
    struck_log_is_legal();
    opens_commute();
    fresh_is_sound();
    sound_after_apply();
    sound_after_commit();
    sound_after_strike();
    untouched_stays();
    untouched_shows_the_same();
    opens_are_counted();
    run_is_history();
    run_goes_on();
    summary_after();
    transactions_in_run();
    opens_after();
    beginners_after();
    operations_in_run();
    held_after();
    blocker_is_held();
    busy_names_who_keeps();
    own_after();
    logs_are_counted();
    idle_is_closed();
    survives_as_read();
    first_op_is_least();
    answer_may_follow();
    replay_runs();
    command_appends();
    replays_join();
    sorts_into_commit_order();
    struck_view_is_legal();
    views_are_legal();
    commit_keeps_views();
    fresh_represents();
    represents_on();
    allows_alike();
    machine_may_apply();
    headline();
    checked_headline();
    new_is_kept();
    stays_kept();
    types_stay();
    room_after();
    quiet_moves();
    begin_moves();
    op_moves();
    end_moves();
    rollback_moves();
    answers_as_defined();
    rows_say_who_is_open();
    rows_are_counted();
    rows_are_few();
    places_are_counted();
    places_are_few();
    places_are_inside();
    has_what_is_struck();
    asked_is_replayed();
    step_is_asked::<u32>();
    answer_is_defined();
}
