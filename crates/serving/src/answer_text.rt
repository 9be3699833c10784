//! The lines of an answer, each after the tag.

ghost use Rattle.std.specs.Prelude.{◌≡◌, None, ◌+◌, ◌<◌, ◌==◌, [], ◌∷◌, ◌++◌, codes, IfSome, drop, length, position};
ghost use Rattle.outputs.specs.Out.{Puts};
ghost use Rattle.serving.specs.AnswerText.{pieces_text, key_refusal_name, outcome_text, words_behind, answer_text, counts_text, done_text, draining_text, after_space, busy_text, number_after_space, peek_refusal_name, place_text, refused_text, seen_text, fault_name, number_text, tag_text, transaction_text, behind, event_text, answer_lines, object_answer};
ghost use Rattle.std.specs.List.{flat_map};

use crate::answer_line::{AnswerLine, KeyRefusal, Moment};
use crate::held_text::put_held;
use history_text::{write_event, write_object};
use itoa::Buffer;
use journal::{Outcome, TypeText};
use object_trait::{Event, EventKind};
use outputs::{Out, OutFault, items_in_turn, put_all, texts_in_turn};
use request_text::{RequestFault, TransactionName};
use script_run::name_of;
use store::PeekRefusal;
use store_text::ObjectLine;
use type_table::Name;

/// Writes the lines of an answer after its tag, which is `-` where there is none.
///
/// # Errors
///
/// The fault that stopped the output, which then took a beginning of the lines.
pub fn write_answer<W: Out>(
    out: &mut W,
    tag: Option<Name>,
    answer: &AnswerLine,
) -> Result<(), OutFault>
    requires { W.fault out.old ≡ None }
    ensures { Puts (W.taken out.old) (W.taken out.new) (W.fault out.new) (answer_text tag answer.now) result }
{
    let tag = tag_of(&tag);
    match answer {
        AnswerLine::Done
        | AnswerLine::Committed
        | AnswerLine::Voted
        | AnswerLine::VotedBefore
        | AnswerLine::Decided => put_done(out, tag),
        AnswerLine::Begun { t } => put_transaction(out, tag, b" ok ", *t),
        AnswerLine::State { state: number }
        | AnswerLine::Extended { first: number }
        | AnswerLine::Found { x: number } => put_number(out, tag, *number),
        AnswerLine::Reply { reply } => put_all(out, &[tag, b" reply ", reply.as_bytes(), b"\n"]),
        AnswerLine::Busy { blocker } => put_transaction(out, tag, b" busy ", *blocker),
        AnswerLine::Draining => put_draining(out, tag),
        AnswerLine::Nothing => put_all(out, &[tag, b" none\n"]),
        AnswerLine::Counts {
            events,
            begun,
            open,
            prepared,
        } => put_counts(out, tag, *events, *begun, *open, *prepared),
        AnswerLine::Objects { objects } => put_objects(out, tag, objects),
        AnswerLine::Types { texts } => put_types(out, tag, texts),
        AnswerLine::Events { events } => put_events(out, tag, events),
        AnswerLine::Seen { moment, replies } => put_seen(out, tag, *moment, replies),
        AnswerLine::SeenStates { moment, states } => put_states(out, tag, *moment, states),
        AnswerLine::Completed { replies } => put_completed(out, tag, replies),
        AnswerLine::CompletedOne { reply } => {
            put_all(out, &[tag, b" done ", reply.as_bytes(), b"\n"])
        }
        AnswerLine::NothingSeen { at } | AnswerLine::NothingAt { at } => {
            put_place(out, tag, b" none ", *at)
        }
        AnswerLine::Unseen { refusal } => {
            put_all(
                out,
                &[
                    tag,
                    b" refused ",
                    peek_refusal_name(*refusal).as_bytes(),
                    b"\n",
                ],
            )
        }
        AnswerLine::BusyAt { at, blocker } => put_busy(out, tag, *at, *blocker),
        AnswerLine::RefusedAt { at, refusal } => {
            put_refused(out, tag, *at, name_of(*refusal).as_bytes())
        }
        AnswerLine::Replied { replies } => put_replies(out, tag, b" done", replies.as_bytes()),
        AnswerLine::KeyRefused { why } => {
            put_all(
                out,
                &[tag, b" refused ", key_refusal_name(*why).as_bytes(), b"\n"],
            )
        }
        AnswerLine::OutcomeIs { outcome } => put_outcome(out, tag, outcome),
        AnswerLine::OutcomePrepared => put_all(out, &[tag, b" prepared\n"]),
        AnswerLine::IsPrepared => put_all(out, &[tag, b" refused Prepared\n"]),
        AnswerLine::Held { prepared } => put_held(out, tag, prepared),
        AnswerLine::NotAdded { why } => put_all(out, &[tag, b" no ", why.as_slice(), b"\n"]),
        AnswerLine::Waiting => put_all(out, &[]),
        AnswerLine::Refused { refusal } => {
            put_all(
                out,
                &[tag, b" refused ", name_of(*refusal).as_bytes(), b"\n"],
            )
        }
        AnswerLine::Fault { fault } => {
            put_all(
                out,
                &[tag, b" fault ", fault_name(*fault).as_bytes(), b"\n"],
            )
        }
    }
}

/// The bytes of a tag.
fn tag_of(tag: &Option<Name>) -> &[u8]
    ensures { result.now ≡ tag_text tag.now }
{
    match tag {
        Some(tag) => tag.as_bytes(),
        None => b"-",
    }
}

/// Writes that it is done.
pub(crate) fn put_done<W: Out>(out: &mut W, tag: &[u8]) -> Result<(), OutFault>
    requires { W.fault out.old ≡ None }
    ensures { Puts (W.taken out.old) (W.taken out.new) (W.fault out.new) (done_text tag.now) result }
{
    put_all(out, &[tag, b" ok\n"])
}

/// Writes what became of a transaction.
fn put_outcome<W: Out>(out: &mut W, tag: &[u8], outcome: &Option<Outcome>) -> Result<(), OutFault>
    requires { W.fault out.old ≡ None }
    ensures { Puts (W.taken out.old) (W.taken out.new) (W.fault out.new) (outcome_text tag.now outcome.now) result }
{
    match outcome {
        None => put_all(out, &[tag, b" unknown\n"]),
        Some(Outcome::Committed(replies)) => {
            put_replies(out, tag, b" committed", replies.as_bytes())
        }
        Some(Outcome::Aborted) => put_all(out, &[tag, b" aborted\n"]),
    }
}

/// Writes a tag, a word, and replies, of which there may be none.
fn put_replies<W: Out>(out: &mut W, tag: &[u8], word: &[u8], replies: &[u8]) -> Result<(), OutFault>
    requires { W.fault out.old ≡ None }
    ensures { Puts (W.taken out.old) (W.taken out.new) (W.fault out.new) (pieces_text (tag.now ∷ word.now ∷ words_behind replies.now ∷ (10 ∷ []) ∷ [])) result }
{
    if replies.is_empty() {
        return put_all(out, &[tag, word, b"\n"]);
    }
    put_all(out, &[tag, word, b" ", replies, b"\n"])
}

/// The name of a reason why nothing is done under a key.
fn key_refusal_name(why: KeyRefusal) -> &'static str
    ensures { result.now ≡ key_refusal_name why }
{
    match why {
        KeyRefusal::Aborted => "Aborted",
        KeyRefusal::Committed => "Committed",
        KeyRefusal::Prepared => "KeyPrepared",
        KeyRefusal::Decided => "Decided",
        KeyRefusal::Unknown => "Unknown",
        KeyRefusal::Taken => "KeyTaken",
    }
}

/// Writes that no further transaction begins.
fn put_draining<W: Out>(out: &mut W, tag: &[u8]) -> Result<(), OutFault>
    requires { W.fault out.old ≡ None }
    ensures { Puts (W.taken out.old) (W.taken out.new) (W.fault out.new) (draining_text tag.now) result }
{
    put_all(out, &[tag, b" busy drain\n"])
}

/// Writes a tag, words and a transaction.
fn put_transaction<W: Out>(
    out: &mut W,
    tag: &[u8],
    words: &[u8],
    t: TransactionName,
) -> Result<(), OutFault>
    requires { W.fault out.old ≡ None }
    ensures { Puts (W.taken out.old) (W.taken out.new) (W.fault out.new) (transaction_text tag.now words.now t) result }
{
    let (mut life, mut number) = (Buffer::new(), Buffer::new());
    put_all(
        out,
        &[
            tag,
            words,
            life.format(t.life).as_bytes(),
            b".",
            number.format(t.number).as_bytes(),
            b"\n",
        ],
    )
}

/// Writes a tag and a number.
fn put_number<W: Out>(out: &mut W, tag: &[u8], number: u32) -> Result<(), OutFault>
    requires { W.fault out.old ≡ None }
    ensures { Puts (W.taken out.old) (W.taken out.new) (W.fault out.new) (number_text tag.now number) result }
{
    let mut digits = Buffer::new();
    put_all(
        out,
        &[tag, b" ok ", digits.format(number).as_bytes(), b"\n"],
    )
}

/// Writes a tag and four counts.
fn put_counts<W: Out>(
    out: &mut W,
    tag: &[u8],
    events: u32,
    begun: u32,
    open: u32,
    prepared: usize,
) -> Result<(), OutFault>
    requires { W.fault out.old ≡ None }
    ensures { Puts (W.taken out.old) (W.taken out.new) (W.fault out.new) (counts_text tag.now events begun «open» prepared) result }
{
    let (mut first, mut second) = (Buffer::new(), Buffer::new());
    let (mut third, mut last) = (Buffer::new(), Buffer::new());
    put_all(
        out,
        &[
            tag,
            b" ok events ",
            first.format(events).as_bytes(),
            b" begun ",
            second.format(begun).as_bytes(),
            b" open ",
            third.format(open).as_bytes(),
            b" prepared ",
            last.format(prepared).as_bytes(),
            b"\n",
        ],
    )
}

/// Writes a tag, words and a place.
fn put_place<W: Out>(out: &mut W, tag: &[u8], words: &[u8], at: usize) -> Result<(), OutFault>
    requires { W.fault out.old ≡ None }
    ensures { Puts (W.taken out.old) (W.taken out.new) (W.fault out.new) (place_text tag.now words.now at) result }
{
    let mut digits = Buffer::new();
    put_all(out, &[tag, words, digits.format(at).as_bytes(), b"\n"])
}

/// Writes a tag, a place and a transaction that is in the way there.
fn put_busy<W: Out>(
    out: &mut W,
    tag: &[u8],
    at: usize,
    blocker: TransactionName,
) -> Result<(), OutFault>
    requires { W.fault out.old ≡ None }
    ensures { Puts (W.taken out.old) (W.taken out.new) (W.fault out.new) (busy_text tag.now at blocker) result }
{
    let (mut place, mut life, mut number) = (Buffer::new(), Buffer::new(), Buffer::new());
    put_all(
        out,
        &[
            tag,
            b" busy ",
            place.format(at).as_bytes(),
            b" ",
            life.format(blocker.life).as_bytes(),
            b".",
            number.format(blocker.number).as_bytes(),
            b"\n",
        ],
    )
}

/// Writes a tag, a place and why the call there was refused.
fn put_refused<W: Out>(out: &mut W, tag: &[u8], at: usize, why: &[u8]) -> Result<(), OutFault>
    requires { W.fault out.old ≡ None }
    ensures { Puts (W.taken out.old) (W.taken out.new) (W.fault out.new) (refused_text tag.now at why.now) result }
{
    let mut place = Buffer::new();
    put_all(
        out,
        &[
            tag,
            b" refused ",
            place.format(at).as_bytes(),
            b" ",
            why,
            b"\n",
        ],
    )
}

/// The name of a reason why a call isn't answered to a transaction that only reads.
fn peek_refusal_name(refusal: PeekRefusal) -> &'static str
    ensures { result.now ≡ peek_refusal_name refusal }
{
    match refusal {
        PeekRefusal::NoObject => "NoObject",
        PeekRefusal::NoCall => "NoCall",
        PeekRefusal::Changes => "Changes",
    }
}

/// Writes what a transaction that only reads has seen at a moment.
pub(crate) fn put_seen<W: Out>(
    out: &mut W,
    tag: &[u8],
    moment: Moment,
    replies: &[Name],
) -> Result<(), OutFault>
    requires { W.fault out.old ≡ None }
    ensures { Puts (W.taken out.old) (W.taken out.new) (W.fault out.new) (seen_text tag.now moment ++ (flat_map after_space replies.now ++ (10 ∷ []))) result }
{
    texts_in_turn();
    put_moment(out, tag, moment)?;
    put_words(out, replies)
}

/// Writes the committed states of a moment.
pub(crate) fn put_states<W: Out>(
    out: &mut W,
    tag: &[u8],
    moment: Moment,
    states: &[u32],
) -> Result<(), OutFault>
    requires { W.fault out.old ≡ None }
    ensures { Puts (W.taken out.old) (W.taken out.new) (W.fault out.new) (seen_text tag.now moment ++ (flat_map number_after_space states.now ++ (10 ∷ []))) result }
{
    texts_in_turn();
    put_moment(out, tag, moment)?;
    put_numbers(out, states)
}

/// Writes the replies of a whole transaction.
pub(crate) fn put_completed<W: Out>(
    out: &mut W,
    tag: &[u8],
    replies: &[Name],
) -> Result<(), OutFault>
    requires { W.fault out.old ≡ None }
    ensures { Puts (W.taken out.old) (W.taken out.new) (W.fault out.new) ((tag.now ++ codes " done") ++ (flat_map after_space replies.now ++ (10 ∷ []))) result }
{
    texts_in_turn();
    put_all(out, &[tag, b" done"])?;
    put_words(out, replies)
}

/// Writes a tag and the moment of what was seen.
fn put_moment<W: Out>(out: &mut W, tag: &[u8], moment: Moment) -> Result<(), OutFault>
    requires { W.fault out.old ≡ None }
    ensures { Puts (W.taken out.old) (W.taken out.new) (W.fault out.new) (seen_text tag.now moment) result }
{
    let (mut life, mut commits) = (Buffer::new(), Buffer::new());
    put_all(
        out,
        &[
            tag,
            b" seen ",
            life.format(moment.life).as_bytes(),
            b".",
            commits.format(moment.commits).as_bytes(),
        ],
    )
}

/// Writes words, each after a space, and ends the line.
fn put_words<W: Out>(out: &mut W, words: &[Name]) -> Result<(), OutFault>
    requires { W.fault out.old ≡ None }
    ensures { Puts (W.taken out.old) (W.taken out.new) (W.fault out.new) (flat_map after_space words.now ++ (10 ∷ [])) result }
{
    texts_in_turn();
    put_each_word(out, words)?;
    put_all(out, &[b"\n"])
}

/// Writes words, each after a space.
fn put_each_word<W: Out>(out: &mut W, words: &[Name]) -> Result<(), OutFault>
    requires { W.fault out.old ≡ None }
    ensures { Puts (W.taken out.old) (W.taken out.new) (W.fault out.new) (flat_map after_space words.now) result }
{
    texts_in_turn();
    items_in_turn::<Name>();
    for word in words {
        put_word(out, word)?;
    }
    Ok(())
}

/// Writes a word after a space.
fn put_word<W: Out>(out: &mut W, word: &Name) -> Result<(), OutFault>
    requires { W.fault out.old ≡ None }
    ensures { Puts (W.taken out.old) (W.taken out.new) (W.fault out.new) (after_space word.now) result }
{
    put_all(out, &[b" ", word.as_bytes()])
}

/// Writes numbers, each after a space, and ends the line.
pub(crate) fn put_numbers<W: Out>(out: &mut W, numbers: &[u32]) -> Result<(), OutFault>
    requires { W.fault out.old ≡ None }
    ensures { Puts (W.taken out.old) (W.taken out.new) (W.fault out.new) (flat_map number_after_space numbers.now ++ (10 ∷ [])) result }
{
    texts_in_turn();
    put_each_number(out, numbers)?;
    put_all(out, &[b"\n"])
}

/// Writes numbers, each after a space.
fn put_each_number<W: Out>(out: &mut W, numbers: &[u32]) -> Result<(), OutFault>
    requires { W.fault out.old ≡ None }
    ensures { Puts (W.taken out.old) (W.taken out.new) (W.fault out.new) (flat_map number_after_space numbers.now) result }
{
    texts_in_turn();
    items_in_turn::<u32>();
    for number in numbers {
        put_one_number(out, number)?;
    }
    Ok(())
}

/// Writes a number after a space.
fn put_one_number<W: Out>(out: &mut W, number: &u32) -> Result<(), OutFault>
    requires { W.fault out.old ≡ None }
    ensures { Puts (W.taken out.old) (W.taken out.new) (W.fault out.new) (number_after_space number.now) result }
{
    let mut digits = Buffer::new();
    put_all(out, &[b" ", digits.format(*number).as_bytes()])
}

/// The name of a fault.
fn fault_name(fault: RequestFault) -> &'static str
    ensures { result.now ≡ fault_name fault }
{
    match fault {
        RequestFault::TooLong => "TooLong",
        RequestFault::NotAscii => "NotAscii",
        RequestFault::BadTag => "BadTag",
        RequestFault::UnknownVerb => "UnknownVerb",
        RequestFault::BadWords => "BadWords",
        RequestFault::BadNumber => "BadNumber",
    }
}

/// Writes the objects, and that these are all.
pub(crate) fn put_objects<W: Out>(
    out: &mut W,
    tag: &[u8],
    objects: &[ObjectLine],
) -> Result<(), OutFault>
    requires { W.fault out.old ≡ None }
    ensures { Puts (W.taken out.old) (W.taken out.new) (W.fault out.new) (flat_map (object_answer tag.now) objects.now ++ done_text tag.now) result }
{
    texts_in_turn();
    put_object_lines(out, tag, objects)?;
    put_done(out, tag)
}

/// Writes the lines of objects.
fn put_object_lines<W: Out>(out: &mut W, tag: &[u8], objects: &[ObjectLine]) -> Result<(), OutFault>
    requires { W.fault out.old ≡ None }
    ensures { Puts (W.taken out.old) (W.taken out.new) (W.fault out.new) (flat_map (object_answer tag.now) objects.now) result }
{
    texts_in_turn();
    items_in_turn::<ObjectLine>();
    for object in objects {
        put_object(out, tag, object)?;
    }
    Ok(())
}

/// Writes the line of an object.
fn put_object<W: Out>(out: &mut W, tag: &[u8], object: &ObjectLine) -> Result<(), OutFault>
    requires { W.fault out.old ≡ None }
    ensures { Puts (W.taken out.old) (W.taken out.new) (W.fault out.new) (object_answer tag.now object.now) result }
{
    texts_in_turn();
    put_all(out, &[tag, b" "])?;
    write_object(out, object)
}

/// Writes events, and that these are all.
pub(crate) fn put_events<W: Out>(
    out: &mut W,
    tag: &[u8],
    events: &[EventKind],
) -> Result<(), OutFault>
    requires { W.fault out.old ≡ None }
    ensures { Puts (W.taken out.old) (W.taken out.new) (W.fault out.new) (flat_map (event_text tag.now) events.now ++ done_text tag.now) result }
{
    texts_in_turn();
    put_event_lines(out, tag, events)?;
    put_done(out, tag)
}

/// Writes the lines of events.
fn put_event_lines<W: Out>(out: &mut W, tag: &[u8], events: &[EventKind]) -> Result<(), OutFault>
    requires { W.fault out.old ≡ None }
    ensures { Puts (W.taken out.old) (W.taken out.new) (W.fault out.new) (flat_map (event_text tag.now) events.now) result }
{
    texts_in_turn();
    items_in_turn::<EventKind>();
    for kind in events {
        put_event(out, tag, *kind)?;
    }
    Ok(())
}

/// Writes the line of an event.
fn put_event<W: Out>(out: &mut W, tag: &[u8], kind: EventKind) -> Result<(), OutFault>
    requires { W.fault out.old ≡ None }
    ensures { Puts (W.taken out.old) (W.taken out.new) (W.fault out.new) (event_text tag.now kind) result }
{
    texts_in_turn();
    put_all(out, &[tag, b" "])?;
    write_event(out, &Event { worker: 0, kind })
}

/// Writes the texts of types, and that these are all.
pub(crate) fn put_types<W: Out>(out: &mut W, tag: &[u8], texts: &[TypeText]) -> Result<(), OutFault>
    requires { W.fault out.old ≡ None }
    ensures { Puts (W.taken out.old) (W.taken out.new) (W.fault out.new) (flat_map (answer_lines tag.now) texts.now ++ done_text tag.now) result }
{
    texts_in_turn();
    put_texts(out, tag, texts)?;
    put_done(out, tag)
}

/// Writes the lines of texts.
fn put_texts<W: Out>(out: &mut W, tag: &[u8], texts: &[TypeText]) -> Result<(), OutFault>
    requires { W.fault out.old ≡ None }
    ensures { Puts (W.taken out.old) (W.taken out.new) (W.fault out.new) (flat_map (answer_lines tag.now) texts.now) result }
{
    texts_in_turn();
    items_in_turn::<TypeText>();
    for text in texts {
        put_text(out, tag, text.as_bytes())?;
    }
    Ok(())
}

/// Writes what is between the LFs of a text, line by line.
fn put_text<W: Out>(out: &mut W, tag: &[u8], text: &[u8]) -> Result<(), OutFault>
    requires { W.fault out.old ≡ None }
    ensures { Puts (W.taken out.old) (W.taken out.new) (W.fault out.new) (answer_lines tag.now text.now) result }
{
    texts_in_turn();
    let mut rest = text;
    while let Some(at) = line_end(rest) {
        put_behind(out, tag, &rest[..at])?;
        rest = text_after(rest, at);
    }
    put_behind(out, tag, rest)
}

/// What comes after a place of a text.
fn text_after(text: &[u8], at: usize) -> &[u8]
    requires { at < length text.now }
    ensures { result.now ≡ drop (at + 1) text.now }
{
    &text[at + 1..]
}

/// The place of the first LF.
fn line_end(text: &[u8]) -> Option<usize>
    ensures place { result ≡ position (λ b. b == 10) text.now }
    ensures within { IfSome result (λ at. at < length text.now) }
{
    text.iter().position(|b| *b == b'\n')
}

/// Writes a line after a tag.
fn put_behind<W: Out>(out: &mut W, tag: &[u8], line: &[u8]) -> Result<(), OutFault>
    requires { W.fault out.old ≡ None }
    ensures { Puts (W.taken out.old) (W.taken out.new) (W.fault out.new) (behind tag.now line.now) result }
{
    put_all(out, &[tag, b" ", line, b"\n"])
}
