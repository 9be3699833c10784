//! Workers whose turns are drawn, all in one thread.

ghost use Rattle.std.specs.Prelude.{◌≡◌, ◌<◌, ◌≤◌, ◌%◌, ◌⊎◌, map, length, vec_len, Some};
ghost use Rattle.rand_pcg.specs.Pcg.{pcg32};
ghost use Rattle.jobs_text.specs.Jobs.{calls_in};
ghost use Rattle.workers.specs.SharedCalls.{AreGoing, HaveEnded};
ghost use Rattle.workers.specs.Worked.{DidNothing, Works};
ghost use Rattle.workers.specs.declared.fault.WorkFault.{WorkFault as WorkFaultValue};

use crate::returned::Worked;
use crate::run::reported;
use crate::shared::{HasStart, Shared};
use crate::team::{Team, team_of};
use jobs_text::Job;
use object_trait::Recovery;
use rand_core::utils::NextWord;
use rand_pcg::Lcg64Xsh32;
use std::alloc::Global;
use std::marker::Brand;
use store::Store;
use type_table::MOST_WORKERS;

/// Does what `run_workers` does, in one thread: at each turn the worker is drawn from those that aren't
/// at their ends, by words from this seed. All workers are let in at once, so with a fault nothing was
/// done.
pub fn stress<R: Recovery>(
    alloc: Global,
    store: Store<R>,
    jobs: Vec<Vec<Job>>,
    tries: u8,
    seed: u64,
) -> Worked<R>
    ensures works { Works (record { store = store; jobs = map calls_in jobs.items; tries = tries }) result.fault result.store result.reports.items }
    ensures whole { (fault : WorkFaultValue) → result.fault ≡ Some fault → DidNothing store result.store result.reports.items }
{
    stress_from_start::<R, Brand>(alloc, store, jobs, tries, seed)
}

/// The same from a start, which the type of what is shared has.
fn stress_from_start<R: Recovery, S: HasStart>(
    alloc: Global,
    store: Store<R>,
    jobs: Vec<Vec<Job>>,
    tries: u8,
    seed: u64,
) -> Worked<R>
    requires { S.start ≡ record { store = store; jobs = map calls_in jobs.items; tries = tries } }
    ensures works { Works S.start result.fault result.store result.reports.items }
    ensures whole { (fault : WorkFaultValue) → result.fault ≡ Some fault → DidNothing S.start.store result.store result.reports.items }
{
    let Team { workers, reports } = match team_of(alloc, jobs, tries) {
        Ok(team) => team,
        Err(fault) => {
            return Worked {
                store,
                reports: Vec::new(alloc),
                fault: Some(fault),
            };
        }
    };
    let mut shared: Shared<R, S> = Shared::new(store, workers);
    draw_all(alloc, &mut shared, seed);
    reported(shared, reports)
}

/// Lets all workers in and draws their turns. Where memory is refused none is let in.
fn draw_all<R: Recovery, S: HasStart>(alloc: Global, shared: &mut Shared<R, S>, seed: u64)
    requires { shared.old.let_in ≡ 0 }
    ensures ended { HaveEnded shared.new }
    ensures let_in { (shared.new.let_in ≡ length S.start.jobs) ⊎ (shared.new.let_in ≡ 0) }
{
    let Ok(mut going) = Vec::with_capacity(alloc, MOST_WORKERS) else {
        return;
    };
    for _ in 0..shared.count() {
        shared.let_one_in();
    }
    shared.put_going(&mut going);
    draw_turns(shared, going, seed);
}

/// Draws turns until each worker is at its end.
fn draw_turns<R: Recovery, S: HasStart>(shared: &mut Shared<R, S>, mut going: Vec<u8>, seed: u64)
    requires going { AreGoing shared.old going.items }
    requires few { vec_len going ≤ 16 }
    ensures ended { HaveEnded shared.new }
    ensures let_in { shared.new.let_in ≡ shared.old.let_in }
{
    let mut words = Lcg64Xsh32::new(seed, 0);
    while !going.is_empty() {
        let position = pick(&mut words, going.len() as u32) as usize;
        if shared.step(going[position]) {
            going.remove(position);
        }
    }
}

/// The next word modulo n.
pub fn pick(words: &mut Lcg64Xsh32, n: u32) -> u32
    requires { 0 < n }
    ensures word { result ≡ (pcg32 words.old).0 % n }
    ensures next { words.new ≡ (pcg32 words.old).1 }
{
    words.next_word() % n
}
