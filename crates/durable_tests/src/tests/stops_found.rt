//! What is found after the disk stopped in the midst of a change, or while a client was served.

use super::stops::Stops;
use super::trials::{Seen, Trial, tried_after};
use std::process::Abort;
use std::rt::Clock;

/// How many objects, texts of types, events and prepared transactions a file has.
type File = (u32, usize, u32, usize);

/// Whether the first two objects have counted up, and none that was added.
fn have_counted(seen: &Seen) -> bool {
    let [one, other, third, fourth] = seen.kept;
    (one == Some(1)) & (other == Some(1)) & (third != Some(1)) & (fourth != Some(1))
}

/// How many stops leave the file as it was before the change, or this new one, once what comes before it is settled and until
/// the change is answered, which it is before 1,024 calls. Where it is answered the new file is found.
fn stops_behind<R: Abort + AllocGlobal + Clock>(
    rt: &R,
    stops: Stops,
    trial: Trial,
    old: File,
    new: File,
) -> Option<u32> {
    let mut stopped = 0u32;
    for calls in 0..1_024 {
        match tried_after(rt, stops.behind(calls), trial) {
            None => assert!(rt; stopped == 0),
            Some(seen) => {
                let file = (seen.objects, seen.texts, seen.events, seen.prepared);
                let is_old = (file == old) & (seen.told == 0);
                assert!(rt; have_counted(&seen) & (is_old | (file == new)));
                if seen.told == 1 {
                    return Some(stopped);
                }
                stopped = stopped.saturating_add(1);
            }
        }
    }
    None
}

/// Wherever the disk stops, the old file is found or the new one; and the new one where the call had answered.
#[test]
fn a_stop_in_a_new_epoch_leaves_one_of_both(rt: HostRuntime) {
    for stops in [Stops::Log, Stops::Database] {
        assert!(rt; stops_behind(&rt, stops, Trial::Renews, (2, 1, 4, 0), (2, 1, 0, 0)) >= Some(3));
    }
}

/// The same where objects are added.
#[test]
fn a_stop_while_objects_are_added_leaves_one_of_both(rt: HostRuntime) {
    for stops in [Stops::Log, Stops::Database] {
        assert!(rt; stops_behind(&rt, stops, Trial::Grows, (2, 1, 4, 0), (4, 2, 0, 0)) >= Some(3));
    }
}

/// The same where a transaction is prepared, which goes on in either.
#[test]
fn a_stop_in_a_new_epoch_leaves_what_is_prepared(rt: HostRuntime) {
    for stops in [Stops::Log, Stops::Database] {
        let (old, new) = ((2, 1, 6, 1), (2, 1, 2, 1));
        assert!(rt; stops_behind(&rt, stops, Trial::Holds, old, new) >= Some(3));
        let (old, new) = ((2, 1, 6, 1), (4, 2, 2, 1));
        assert!(rt; stops_behind(&rt, stops, Trial::HoldsAndGrows, old, new) >= Some(3));
    }
}

/// Two transactions count up, one after another, and the end is asked for.
const LINES: &[u8] =
    b"a begin\nb call 1.0 0 inc:1\ndone commit 1.0\na begin\nb call 1.1 0 inc:1\ndone commit 1.1\ne end\n";

/// The same, and the input ends.
const STOPPED: &[u8] =
    b"a begin\nb call 1.0 0 inc:1\ndone commit 1.0\na begin\nb call 1.1 0 inc:1\ndone commit 1.1\n";

/// Two whole transactions count up, each under a key, and the end is asked for.
const UNDER_KEYS: &[u8] = b"a do =k:1 0 inc:1\nb do =k:2 0 inc:1\ne end\n";

/// A transaction counts up, is prepared and is decided, and the end is asked for.
const HELD: &[u8] =
    b"a begin\nb call 1.0 0 inc:1\ndone prepare 1.0 k:1 0\ndone decide k:1 commit\ne end\n";

/// How often the first object is found in each state after a client was served: each commit that was answered is found, and
/// nothing that wasn't asked.
fn states_found<R: Abort + AllocGlobal + Clock>(rt: &R, stops: Stops, trial: Trial) -> [u32; 3] {
    let mut found = [0u32; 3];
    for calls in 0..100 {
        if let Some(seen) = tried_after(rt, stops.behind(calls), trial) {
            let kept = seen.kept[0].expect(rt, "no object") as usize;
            assert!(rt; seen.told <= kept && kept <= 2);
            found[kept] = found[kept].saturating_add(1);
        }
    }
    found
}

/// Wherever the disk stops, each commit that was answered is found, and nothing that wasn't asked.
#[test]
fn a_commit_that_was_told_is_found(rt: HostRuntime) {
    for stops in [Stops::Log, Stops::Database] {
        for lines in [LINES, STOPPED] {
            let found = states_found(&rt, stops, Trial::Serves(lines));
            assert!(rt; found[0] >= 3 && found[1] >= 3 && found[2] >= 3);
        }
    }
}

/// Wherever the disk stops, what is asked again under its key is done once.
#[test]
fn what_has_a_key_is_done_once(rt: HostRuntime) {
    for stops in [Stops::Log, Stops::Database] {
        let found = states_found(&rt, stops, Trial::ServesTwice(UNDER_KEYS));
        assert!(rt; found[0] == 0 && found[1] == 0 && found[2] >= 9);
    }
}

/// Wherever the disk stops, a transaction whose vote was answered is found, prepared or decided; and it isn't prepared any more
/// once its decision was answered.
#[test]
fn a_vote_that_was_told_is_found(rt: HostRuntime) {
    for stops in [Stops::Log, Stops::Database] {
        let mut found = [0u32; 2];
        for calls in 0..100 {
            if let Some(seen) = tried_after(&rt, stops.behind(calls), Trial::Serves(HELD)) {
                let kept = seen.kept[0].expect(&rt, "no object") as usize;
                assert!(rt; kept <= 1 && (kept == 1 || seen.told == 0 && seen.prepared == 0));
                assert!(rt; seen.told < 2 || seen.prepared == 0);
                found[kept] = found[kept].saturating_add(1);
            }
        }
        assert!(rt; found[0] >= 3 && found[1] >= 6);
    }
}
