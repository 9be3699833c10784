//! The lines of the jobs.

ghost use Rattle.std.specs.Prelude.{◌≡◌, ◌++◌, ◌∷◌, [], None, codes};
ghost use Rattle.std.specs.Fmt.{decimal};
ghost use Rattle.std.specs.List.{enumerate_from};
ghost use Rattle.line_text.specs.Spelling.{spaced, text_of};
ghost use Rattle.outputs.specs.Out.{Puts};
ghost use Rattle.work_text.specs.Lines.{job_words, report_text, reports_text};

use itoa::Buffer;
use outputs::{Out, OutFault, items_in_turn, put_line, texts_in_turn};
use script_run::{name_of, number_of};
use serial_order::Refusal;
use worker_turns::{Outcome, Report};

/// Writes a line for each job of each worker, in ascending order of workers and then of their jobs, both
/// counted from 0. It takes no memory.
///
/// # Errors
///
/// The fault that stopped the output, which then took a beginning of the lines.
pub fn write_jobs<W: Out>(reports: &[Report], out: &mut W) -> Result<(), OutFault>
    requires { W.fault out.old ≡ None }
    ensures { Puts (W.taken out.old) (W.taken out.new) (W.fault out.new) (reports_text reports.now) result }
{
    texts_in_turn();
    items_in_turn::<(usize, Report)>();
    for (w, report) in reports.iter().enumerate() {
        write_report(w, report, out)?;
    }
    Ok(())
}

/// Writes a line for each job of a worker.
fn write_report<W: Out>(w: usize, report: &Report, out: &mut W) -> Result<(), OutFault>
    requires { W.fault out.old ≡ None }
    ensures { Puts (W.taken out.old) (W.taken out.new) (W.fault out.new) (report_text (w, report.now)) result }
{
    write_outcomes(w, &report.outcomes, out)
}

/// Writes a line for each of these outcomes.
fn write_outcomes<W: Out>(w: usize, outcomes: &[Outcome], out: &mut W) -> Result<(), OutFault>
    requires { W.fault out.old ≡ None }
    ensures { Puts (W.taken out.old) (W.taken out.new) (W.fault out.new) (text_of (job_words w) (enumerate_from 0 outcomes.now)) result }
{
    texts_in_turn();
    items_in_turn::<(usize, Outcome)>();
    for (i, outcome) in outcomes.iter().enumerate() {
        write_job(w, i, *outcome, out)?;
    }
    Ok(())
}

/// Writes the line of job i of worker w.
fn write_job<W: Out>(w: usize, i: usize, outcome: Outcome, out: &mut W) -> Result<(), OutFault>
    requires { W.fault out.old ≡ None }
    ensures { Puts (W.taken out.old) (W.taken out.new) (W.fault out.new) (spaced (job_words w (i, outcome)) ++ 10 ∷ []) result }
{
    match outcome {
        Outcome::Committed(t) => write_committed(w, i, t, out),
        Outcome::GaveUp => write_word(w, i, b"gaveup", out),
        Outcome::Refused(refusal) => write_refused(w, i, refusal, out),
        Outcome::NotRun => write_word(w, i, b"notrun", out),
    }
}

/// Writes the line of a job whose transaction t committed.
fn write_committed<W: Out>(w: usize, i: usize, t: u32, out: &mut W) -> Result<(), OutFault>
    requires { W.fault out.old ≡ None }
    ensures { Puts (W.taken out.old) (W.taken out.new) (W.fault out.new) (spaced (job_words w (i, Outcome.Committed t)) ++ 10 ∷ []) result }
{
    let (mut worker, mut place, mut number) = (Buffer::new(), Buffer::new(), Buffer::new());
    put_line(
        out,
        b"#",
        &[
            b"job",
            worker.format(w).as_bytes(),
            place.format(i).as_bytes(),
            b"committed",
            number.format(t).as_bytes(),
        ],
    )
}

/// Writes the line of a job that was refused.
fn write_refused<W: Out>(w: usize, i: usize, refusal: Refusal, out: &mut W) -> Result<(), OutFault>
    requires { W.fault out.old ≡ None }
    ensures { Puts (W.taken out.old) (W.taken out.new) (W.fault out.new) (spaced (job_words w (i, Outcome.Refused refusal)) ++ 10 ∷ []) result }
{
    let (mut worker, mut place, mut number) = (Buffer::new(), Buffer::new(), Buffer::new());
    put_line(
        out,
        b"#",
        &[
            b"job",
            worker.format(w).as_bytes(),
            place.format(i).as_bytes(),
            b"refused",
            number.format(number_of(refusal)).as_bytes(),
            name_of(refusal).as_bytes(),
        ],
    )
}

/// Writes the line of a job of which there is no more to say than one word.
fn write_word<W: Out>(w: usize, i: usize, word: &[u8], out: &mut W) -> Result<(), OutFault>
    requires { W.fault out.old ≡ None }
    ensures { Puts (W.taken out.old) (W.taken out.new) (W.fault out.new)
        (spaced (codes "#" ∷ codes "job" ∷ decimal w ∷ decimal i ∷ word.now ∷ []) ++ 10 ∷ []) result }
{
    let (mut worker, mut place) = (Buffer::new(), Buffer::new());
    put_line(
        out,
        b"#",
        &[
            b"job",
            worker.format(w).as_bytes(),
            place.format(i).as_bytes(),
            word,
        ],
    )
}
