//! Who asks: the one who gets the answers.

ghost use Rattle.std.specs.Prelude.{◌≡◌, [], None, true, OnErr, OnOk};
ghost use Rattle.std.specs.Result.{result_err};
ghost use Rattle.std.specs.Io.KnownBytes.{Appends};
ghost use Rattle.outputs.specs.Out.{Puts};
ghost use Rattle.outputs.specs.Gathered.{taken_by, under, waiting};
ghost use Rattle.journal.specs.Journal.{Clean, durable, written};
ghost use Rattle.serving.specs.Told.{AppendsPart, answers_text, greeting, has_lasting};
ghost use Rattle.serving.specs.EpochEnd.{end_answers, last_answers};

use crate::answer_line::{AnswerLine, Answered};
use crate::answer_text::write_answer;
use durable_store::Durable;
use itoa::Buffer;
use outputs::{Gathered, Out, OutFault, items_in_turn, put_all, texts_in_turn};
use request_text::Asked;
use sqlite_trees::store::Alter;

/// Who asks a store. But for the greeting nothing but `tell` writes to its output.
#[derive(Drop)]
pub struct Client<W> {
    out: Gathered<W>,
}

impl<W: Out> Client<W> {
    /// The client that gets what this output takes.
    pub fn new(out: Gathered<W>) -> Client<W>
        ensures { result.out ≡ out }
    {
        Client { out }
    }

    /// The output. What wasn't flushed is in it.
    pub fn into_out(self) -> Gathered<W>
        ensures { result ≡ self.out }
    {
        let Client { out } = self;
        out
    }

    /// Writes the version of what is spoken, and the number of the store's life.
    ///
    /// # Errors
    ///
    /// The fault that stopped the output.
    pub fn greet(&mut self, life: u32) -> Result<(), OutFault>
        requires { W.fault (under self.old.out) ≡ None }
        ensures told { OnOk result (Appends (taken_by W.taken self.old.out) (taken_by W.taken self.new.out) (greeting life)) }
        ensures part { OnErr result (AppendsPart (taken_by W.taken self.old.out) (taken_by W.taken self.new.out) (greeting life)) }
        ensures fault { W.fault (under self.new.out) ≡ result_err result }
    {
        put_greeting(&mut self.out, life)?;
        self.out.flush()
    }

    /// Writes the client these answers, one after another. Where one of them says what no crash takes
    /// away, all that was written is durable.
    ///
    /// # Errors
    ///
    /// The fault that stopped the output, which then took a beginning of the answers' lines.
    pub fn tell<S: Alter>(
        &mut self,
        store: &Durable<S>,
        answers: &[Answered],
    ) -> Result<(), OutFault>
        requires out_takes { W.fault (under self.old.out) ≡ None }
        requires settled { has_lasting answers.now ≡ true → Clean S.Store store.now.journal
            → durable S.Store store.now.journal ≡ written S.Store store.now.journal }
        ensures told { OnOk result (Appends (taken_by W.taken self.old.out) (taken_by W.taken self.new.out) (answers_text answers.now)) }
        ensures part { OnErr result (AppendsPart (taken_by W.taken self.old.out) (taken_by W.taken self.new.out) (answers_text answers.now)) }
        ensures flushed { OnOk result (waiting self.new.out ≡ []) }
        ensures fault { W.fault (under self.new.out) ≡ result_err result }
    {
        put_answers(&mut self.out, answers)?;
        self.out.flush()
    }

    /// Answers the client what comes where an epoch ends: to an extension, where one waited, and that the end is there,
    /// where a line asked for it.
    ///
    /// # Errors
    ///
    /// The fault that stopped the output.
    pub(crate) fn tell_last<S: Alter>(
        &mut self,
        store: &Durable<S>,
        late: Option<Answered>,
        end: Option<Asked>,
    ) -> Result<(), OutFault>
        requires out_takes { W.fault (under self.old.out) ≡ None }
        requires settled { Clean S.Store store.now.journal → durable S.Store store.now.journal ≡ written S.Store store.now.journal }
        ensures told { OnOk result (Appends (taken_by W.taken self.old.out) (taken_by W.taken self.new.out) (answers_text (last_answers late end))) }
        ensures part { OnErr result (AppendsPart (taken_by W.taken self.old.out) (taken_by W.taken self.new.out) (answers_text (last_answers late end))) }
        ensures fault { W.fault (under self.new.out) ≡ result_err result }
    {
        match (late, end) {
            (Some(late), Some(asked)) => self.tell(store, &[late, end_answer(asked)]),
            (Some(late), None) => self.tell(store, &[late]),
            (None, end) => self.tell_end(store, end),
        }
    }

    /// Answers the client that the end is there, where a line asked for it.
    ///
    /// # Errors
    ///
    /// The fault that stopped the output.
    fn tell_end<S: Alter>(&mut self, store: &Durable<S>, end: Option<Asked>) -> Result<(), OutFault>
        requires { W.fault (under self.old.out) ≡ None }
        ensures told { OnOk result (Appends (taken_by W.taken self.old.out) (taken_by W.taken self.new.out) (answers_text (end_answers end))) }
        ensures part { OnErr result (AppendsPart (taken_by W.taken self.old.out) (taken_by W.taken self.new.out) (answers_text (end_answers end))) }
        ensures fault { W.fault (under self.new.out) ≡ result_err result }
    {
        match end {
            Some(asked) => self.tell(store, &[end_answer(asked)]),
            None => Ok(()),
        }
    }
}

/// What a line is answered that asked for the end.
fn end_answer(asked: Asked) -> Answered
    ensures tag { result.tag ≡ asked.tag }
    ensures answer { result.answer ≡ AnswerLine.Done }
{
    Answered {
        tag: asked.tag,
        answer: AnswerLine::Done,
    }
}

/// Writes the greeting.
fn put_greeting<W: Out>(out: &mut W, life: u32) -> Result<(), OutFault>
    requires { W.fault out.old ≡ None }
    ensures { Puts (W.taken out.old) (W.taken out.new) (W.fault out.new) (greeting life) result }
{
    let mut number = Buffer::new();
    put_all(out, &[b"colock 5 ", number.format(life).as_bytes(), b"\n"])
}

/// Writes the lines of answers.
fn put_answers<W: Out>(out: &mut W, answers: &[Answered]) -> Result<(), OutFault>
    requires { W.fault out.old ≡ None }
    ensures { Puts (W.taken out.old) (W.taken out.new) (W.fault out.new) (answers_text answers.now) result }
{
    texts_in_turn();
    items_in_turn::<Answered>();
    for answered in answers {
        write_answer(out, answered.tag, &answered.answer)?;
    }
    Ok(())
}
