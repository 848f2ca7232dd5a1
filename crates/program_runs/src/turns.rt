//! Commands of which each call fails in turn.

use crate::acts::act;
use crate::outcome::Outcome;
use crate::printing::print_ending;
use crate::scene::Scene;
use crate::wanted::Wanted;
use pmem_trait::{Call, Medium};
use script_words::number_of;
use std::alloc::{AllocError, Global};
use std::io;
use std::thread::Threads;

/// `each TURN NUMBER COMMAND`: carries out the command, and then again and again, each time with another call that fails.
/// The number is the greatest one to which an image that is left may recover, or how many reads or writes fail.
pub fn each<R: Threads + Sync>(
    threads: &R,
    rt: &HostRuntime,
    scene: &Scene,
    rest: &[&str],
) -> io::Result<bool> {
    let [turn, number, words @ ..] = rest else {
        return Ok(false);
    };
    let Some(most) = number_of(number) else {
        return Ok(false);
    };
    let whole = act(threads, rt.alloc(), scene, words)?;
    print_ending(rt, &whole)?;
    let wanted = Wanted::counted(rt.alloc(), scene.image, most);
    let calls = match *turn {
        "read" | "write" => most,
        _ => whole.medium.now(),
    };
    let sweep = Sweep {
        turn,
        words,
        whole: &whole,
        wanted: &wanted,
    };
    sweep.print(threads, rt, scene, 1, calls)?;
    Ok(true)
}

/// `behind TURN COUNT MOST COMMAND`: the same as `each` with at most so many calls behind the first one that told a number.
/// A home of a greater number is that of this number in an image of the whole command, or as the requests done leave it.
pub fn behind<R: Threads + Sync>(
    threads: &R,
    rt: &HostRuntime,
    scene: &Scene,
    rest: &[&str],
) -> io::Result<bool> {
    let [turn, count, most, words @ ..] = rest else {
        return Ok(false);
    };
    let (Some(count), Some(most)) = (number_of(count), number_of(most)) else {
        return Ok(false);
    };
    let whole = act(threads, rt.alloc(), scene, words)?;
    print_ending(rt, &whole)?;
    let Some(first) = whole.first_told() else {
        return Ok(false);
    };
    let wanted = Wanted::seen(rt.alloc(), scene.image, most, &whole, first)?;
    let last = whole.medium.now().min(first.saturating_add(count));
    let sweep = Sweep {
        turn,
        words,
        whole: &whole,
        wanted: &wanted,
    };
    sweep.print(threads, rt, scene, first.saturating_add(1), last)?;
    Ok(true)
}

/// A command that is carried out again and again, each time with another call that fails.
#[derive(Clone, Copy)]
struct Sweep<'a> {
    turn: &'a str,
    words: &'a [&'a str],
    /// What the command leaves where no call fails.
    whole: &'a Outcome,
    wanted: &'a Wanted,
}

impl Sweep<'_> {
    /// Carries the command out once for each call from the first to the last, and prints how it ended. Of endings that follow
    /// one another and are the same, only the first stands.
    fn print<R: Threads + Sync>(
        &self,
        threads: &R,
        rt: &HostRuntime,
        scene: &Scene,
        first: u64,
        last: u64,
    ) -> io::Result<()> {
        let mut before = String::new(rt.alloc());
        for call in first..=last {
            let outcome = failed(threads, rt.alloc(), scene, self.turn, self.words, call)?;
            let wanted = self.wanted;
            let report = report(
                threads,
                rt.alloc(),
                self.turn,
                self.whole,
                wanted,
                &outcome,
                call,
            )?;
            if report.as_str() != before.as_str() {
                print!(rt; "from call {call} on:\n{report}")?;
                before = report;
            }
        }
        Ok(())
    }
}

/// `after NUMBER MOST COMMAND`: carries out a command where the call fails behind the one by which the last command told
/// this number, and says what was told, and then the same as `each`. Gives what was left.
pub fn after<R: Threads + Sync>(
    threads: &R,
    rt: &HostRuntime,
    scene: &Scene,
    whole: &Outcome,
    rest: &[&str],
) -> io::Result<Option<Outcome>> {
    let [number, most, words @ ..] = rest else {
        return Ok(None);
    };
    let (Some(number), Some(most)) = (number_of(number), number_of(most)) else {
        return Ok(None);
    };
    let Some(calls) = whole.calls_to(Call::Tell(number)) else {
        return Ok(None);
    };
    let wanted = Wanted::counted(rt.alloc(), scene.image, most);
    let call = calls.saturating_add(1);
    let outcome = failed(threads, rt.alloc(), scene, "early", words, call)?;
    let told = outcome.told(rt.alloc())?;
    let report = report(threads, rt.alloc(), "early", whole, &wanted, &outcome, call)?;
    print!(rt; "{told}\n{report}")?;
    Ok(Some(outcome))
}

/// What a command leaves where this call fails, or the budget ends before it.
fn failed<R: Threads + Sync>(
    threads: &R,
    alloc: Global,
    scene: &Scene,
    turn: &str,
    words: &[&str],
    call: u64,
) -> Result<Outcome, AllocError> {
    let mut scene = *scene;
    let before = if turn == "budget" { 1 } else { 0 };
    scene.settings.set(turn, call.saturating_sub(before));
    act(threads, alloc, &scene, words)
}

/// The lines that say how a command ended where this call failed.
fn report<R: Threads + Sync>(
    threads: &R,
    alloc: Global,
    turn: &str,
    whole: &Outcome,
    wanted: &Wanted,
    outcome: &Outcome,
    call: u64,
) -> Result<String, AllocError> {
    let mut text = outcome.answer.clone()?;
    if outcome.medium.faults() == 0 {
        text.push_str(&outcome.ending(alloc)?)?;
        text.push_str(output_line(turn, whole, outcome, call))?;
        return Ok(text);
    }
    text.push_str(if outcome.failed_at(call) {
        "only this call on the medium failed, and it was the last\n"
    } else {
        "other calls on the medium failed\n"
    })?;
    text.push_str(output_line(turn, whole, outcome, call))?;
    text.push_str(if wanted.both_survive(threads, alloc, outcome)? {
        "both images of a crash are right\n"
    } else {
        "an image of a crash is wrong\n"
    })?;
    Ok(text)
}

/// The line that says how much of the output was printed where this call failed; where there is none, whether anything was
/// told.
fn output_line(turn: &str, whole: &Outcome, outcome: &Outcome, call: u64) -> &'static str {
    let (Some(printed), Some(whole)) = (&outcome.printed, &whole.printed) else {
        let is_told = outcome.medium.told().is_some();
        return if is_told {
            "told a number\n"
        } else {
            "told nothing\n"
        };
    };
    let is_up_to_call = printed.len() as u64 == call.saturating_sub(1);
    if turn == "write" && is_up_to_call && whole.starts_with(printed) {
        "printed the bytes before this write\n"
    } else if turn != "write" && outcome.streams && whole.starts_with(printed) {
        "printed no more than the first bytes\n"
    } else if printed.is_empty() {
        "printed nothing\n"
    } else if printed == whole {
        "printed all\n"
    } else {
        "printed something else\n"
    }
}
