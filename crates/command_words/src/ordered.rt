//! The words of an audit in an order that is given.
ghost use Rattle.std.specs.Prelude.{◌≡◌, ◌∷◌, ℕ, List, true, false, All, codes, IfErr, IfNone, IfOk, IfSome, MatchOption};
ghost use Rattle.clap.specs.Walk.{texts};
ghost use Rattle.command_words.specs.Lines.{IsPlain};
ghost use Rattle.command_words.specs.Ordered.{AreOrderedWords, Ordered, SpellsNumbers, SpellsOrder, SpellsTransaction};
ghost use Rattle.command_words.specs.Words.{OnUsage, asked_of};
ghost use Rattle.command_words.specs.Words as asked;

use crate::serve::{asks_help, is_plain};
use crate::{Task, Topic, WordFault};
use decimals::long_number_of;
use std::alloc::{AllocError, Global};

/// What is said of words after `audit --order` that aren't those of such an audit.
const USAGE: &str = "\
error: the words after audit --order are T,T,.. HISTORY TYPE..., and no path
begins with a hyphen

Usage: colock audit --order T,T,.. HISTORY TYPE...

For more information, try '--help'.
";

/// Reads the words after `audit --order`.
pub(crate) fn read_ordered<'a>(alloc: Global, words: &[&'a str]) -> Result<Task<'a>, WordFault>
    ensures taken { IfOk result (λ task. (a : Ordered) × (asked_of task ≡ asked.audit_ordered a) × AreOrderedWords (codes "audit" ∷ codes "--order" ∷ texts words.now) a) }
    ensures refused { IfErr result (λ fault. OnUsage fault ((a : Ordered) → ¬ (AreOrderedWords (codes "audit" ∷ codes "--order" ∷ texts words.now) a))) }
{
    match task_of(alloc, words) {
        Ok(Some(task)) => Ok(task),
        Ok(None) => Err(fault_of(alloc, words)),
        Err(AllocError) => Err(WordFault::NoMemory),
    }
}

/// The task of the words `T,T,.. HISTORY TYPE...`.
fn task_of<'a>(alloc: Global, words: &[&'a str]) -> Result<Option<Task<'a>>, AllocError>
    ensures taken { IfOk result (λ found. IfSome found (λ task. (a : Ordered) × (asked_of task ≡ asked.audit_ordered a)
        × AreOrderedWords (codes "audit" ∷ codes "--order" ∷ texts words.now) a)) }
    ensures other { IfOk result (λ found. IfNone found ((a : Ordered) → ¬ (AreOrderedWords (codes "audit" ∷ codes "--order" ∷ texts words.now) a))) }
{
    match *words {
        [list, history, ref types @ ..] => ordered_task(alloc, list, history, types),
        _ => Ok(None),
    }
}

/// The task of these words.
fn ordered_task<'a>(
    alloc: Global,
    list: &str,
    history: &'a str,
    types: &[&'a str],
) -> Result<Option<Task<'a>>, AllocError>
    ensures taken { IfOk result (λ found. IfSome found (λ task. (a : Ordered) × (asked_of task ≡ asked.audit_ordered a)
        × AreOrderedWords (codes "audit" ∷ codes "--order" ∷ list.now ∷ history.entry.now ∷ texts types.now) a)) }
    ensures other { IfOk result (λ found. IfNone found ((a : Ordered) → ¬ (AreOrderedWords (codes "audit" ∷ codes "--order" ∷ list.now ∷ history.entry.now ∷ texts types.now) a))) }
{
    if types.is_empty() || !is_plain(history) || !are_plain(types) {
        return Ok(None);
    }
    let Some(order) = order_of(alloc, list)? else {
        return Ok(None);
    };
    Ok(Some(Task::AuditOrdered {
        order,
        history,
        types: types.to_vec(alloc)?,
    }))
}

/// Whether none of the words begins with a hyphen.
fn are_plain(words: &[&str]) -> bool
    ensures plain { result ≡ true → All IsPlain (texts words.now) }
    ensures other { result ≡ false → ¬ (All IsPlain (texts words.now)) }
{
    for word in words {
        if !is_plain(word) {
            return false;
        }
    }
    true
}

/// The numbers of a list, which has none where it is empty.
fn order_of(alloc: Global, list: &str) -> Result<Option<Vec<u32>>, AllocError>
    ensures { IfOk result (λ found. MatchOption found ((ns : List ℕ) → ¬ (SpellsOrder list.now ns)) (λ v. SpellsOrder list.now v.items)) }
{
    if list.is_empty() {
        return Ok(Some(Vec::new(alloc)));
    }
    numbers_of(alloc, list)
}

/// The numbers of a text, with a comma between two.
fn numbers_of(alloc: Global, text: &str) -> Result<Option<Vec<u32>>, AllocError>
    ensures { IfOk result (λ found. MatchOption found ((ns : List ℕ) → ¬ (SpellsNumbers text.now ns)) (λ v. SpellsNumbers text.now v.items)) }
{
    let mut numbers = Vec::new(alloc);
    let mut rest = text;
    'numbers: while let Some((first, behind)) = rest.split_once(',') {
        let Some(number) = number_of(first) else {
            return Ok(None);
        };
        numbers.push(number)?;
        rest = behind;
    }
    let Some(number) = number_of(rest) else {
        return Ok(None);
    };
    numbers.push(number)?;
    Ok(Some(numbers))
}

/// The number of a transaction.
fn number_of(word: &str) -> Option<u32>
    ensures number { IfSome result (SpellsTransaction word.now) }
    ensures other { IfNone result ((n : ℕ) → ¬ (SpellsTransaction word.now n)) }
{
    let number = long_number_of(word.as_bytes())?;
    u32::try_from(number).ok()
}

/// What is said of words that aren't those of such an audit.
fn fault_of(alloc: Global, words: &[&str]) -> WordFault {
    let text = if words.iter().any(|word| asks_help(word)) {
        String::from_str(alloc, Topic::Audit.text())
    } else {
        usage_of(alloc, words)
    };
    match text {
        Ok(text) => WordFault::Usage { text },
        Err(_) => WordFault::NoMemory,
    }
}

/// What is said where no word calls for help: the first word of the list that is no number, if there is one.
fn usage_of(alloc: Global, words: &[&str]) -> Result<String, AllocError> {
    let list = words.first().copied().unwrap_or("");
    match no_number_of(list) {
        Some(word) => format!(in alloc;
            "error: invalid value '{word}' for '--order <T,T,..>': no transaction's number\n\nFor more information, try '--help'.\n"
        ),
        None => String::from_str(alloc, USAGE),
    }
}

/// The first word of a list that is no number.
fn no_number_of(list: &str) -> Option<&str> {
    if list.is_empty() {
        return None;
    }
    list.split(',').find(|word| number_of(word).is_none())
}
