//! The committed transactions of a history, each with its operations.

ghost use Rattle.std.specs.Prelude.{◌≡◌, ◌<◌, ◌++◌, ◌∷◌, [], length, map, IfErr, IfOk};
ghost use Rattle.std.specs.List.{AllByRecursion};
ghost use Rattle.declared_types.specs.Declarations.{table_of};
ghost use Rattle.serial_order.specs.History.{IsHistory};
ghost use Rattle.history_audit.specs.Commits.{AreCommits, AreIndexes, IsIndexOf, NoneAborts, numbers};
ghost use Rattle.history_judge.specs.Judged.{StopsJudge};

use declared_types::DeclaredType;
use history_judge::{AuditFault, Committed, Judge, nothing_began};
use object_trait::Event;
use serial_order::{own_after, summary_after};
use std::alloc::{AllocError, Global};
use std::marker::Model;

/// The committed transactions of a history. Contracts see the list of them, in commit order.
#[derive(Drop)]
pub struct Commits {
    list: Vec<Committed>,
    // the place of each, by its number
    places: Vec<Option<usize>>,
}

impl Model for Commits {
    ghost use Rattle.std.specs.Prelude.{List, length};
    ghost use Rattle.std.specs.List.{AllByRecursion};
    ghost use Rattle.history_audit.specs.Commits.{AreIndexed};
    ghost use Rattle.history_judge.specs.declared.committed.Committed.{Committed};

    ghost Value = { List Committed };

    ghost view = { λ a. a.list.items };

    ghost invariant = { λ a. AreIndexed a.list.items a.places.items };
}

impl Commits {
    /// Those of these events.
    ///
    /// # Errors
    ///
    /// `BadEvent` where the events are no history, with the first bad one; `NoMemory` where memory was refused.
    pub fn new(
        alloc: Global,
        events: &[Event],
        types: &[&DeclaredType],
    ) -> Result<Commits, AuditFault>
        ensures history { IfOk result (λ _. IsHistory (map (λ t. table_of t.now) types.now) events.now) }
        ensures all { IfOk result (AreCommits (map (λ t. table_of t.now) types.now) events.now) }
        ensures apart { IfOk result (λ _. NoneAborts events.now) }
        ensures refused { IfErr result (StopsJudge (map (λ t. table_of t.now) types.now) events.now) }
    {
        let list = gather(alloc, events, types)?;
        match places_of(alloc, &list, events.len()) {
            Ok(places) => Ok(Commits { list, places }),
            Err(AllocError) => Err(AuditFault::NoMemory),
        }
    }

    /// All of them, in commit order.
    pub fn as_slice(&self) -> &[Committed]
        ensures { result.now ≡ self.now }
    {
        self.list.as_slice()
    }

    /// A number above those of all.
    pub fn above(&self) -> usize
        ensures { AllByRecursion (λ c. c.number < result) self.now }
    {
        self.places.len()
    }

    /// The place of t, where it committed.
    pub fn place(&self, t: u32) -> Option<usize>
        ensures { IsIndexOf (numbers self.now) t result }
    {
        match self.places.get(t as usize) {
            Some(place) => *place,
            None => None,
        }
    }
}

/// The transactions that these events commit, in commit order.
fn gather(
    alloc: Global,
    events: &[Event],
    types: &[&DeclaredType],
) -> Result<Vec<Committed>, AuditFault>
    ensures history { IfOk result (λ _. IsHistory (map (λ t. table_of t.now) types.now) events.now) }
    ensures gathered { IfOk result (λ them. AreCommits (map (λ t. table_of t.now) types.now) events.now them.items) }
    ensures apart { IfOk result (λ _. NoneAborts events.now) }
    ensures below { IfOk result (λ them. AllByRecursion (λ c. c.number < length events.now) them.items) }
    ensures refused { IfErr result (StopsJudge (map (λ t. table_of t.now) types.now) events.now) }
{
    nothing_began();
    summary_after();
    own_after();
    let mut judge = Judge::new(alloc);
    let mut commits = Vec::new(alloc);
    for at in 0..events.len() {
        if let Some(committed) = judge.take(types, events, at)? {
            push(&mut commits, committed)?;
        }
    }
    Ok(commits)
}

/// One more.
fn push(commits: &mut Vec<Committed>, committed: Committed) -> Result<(), AuditFault>
    ensures ok { IfOk result (λ _. commits.new.items ≡ commits.old.items ++ committed ∷ []) }
    ensures err { IfErr result (λ fault. fault ≡ AuditFault.NoMemory) }
{
    match commits.push(committed) {
        Ok(()) => Ok(()),
        Err(_) => Err(AuditFault::NoMemory),
    }
}

/// The place of each, by its number.
fn places_of(
    alloc: Global,
    commits: &[Committed],
    above: usize,
) -> Result<Vec<Option<usize>>, AllocError>
    requires { AllByRecursion (λ c. c.number < above) commits.now }
    ensures { IfOk result (λ them. (length them.items ≡ above) × AreIndexes (numbers commits.now) them.items) }
{
    let mut places = vec![in alloc; None; above]?;
    for place in 0..commits.len() {
        places[commits[place].number as usize] = Some(place);
    }
    Ok(places)
}
