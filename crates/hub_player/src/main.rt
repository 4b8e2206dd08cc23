//! The program `hub_player`: it plays step lines on the parts that threads share, each line by
//! their public calls alone, and prints the outcome lines that `messagehub steps` prints for them.
//! The ends that an agent has are held by its event loop.
//!
//! Called as `hub_player loops` it knows more lines. `turn A` makes a turn of the loop of agent A.
//! Each step line is printed behind `> ` above its outcome, those too that do what a turn has done:
//! a take with the adoptions, or the end of an agent that was ordered to end. A port of the take
//! that the loop doesn't hold is `missing E`. A turn that has delivered nothing prints `idle`, or
//! `busy` where somebody was inside. The others say what no step line says:
//!
//! | Line | What it does |
//! |---|---|
//! | `refuse A` | a turn whose delivery the handler refuses |
//! | `rest A` | the loop rests, and goes on only where somebody has rung |
//! | `run A N` | the loop runs, and its handler gives the order to end with the Nth delivery |
//! | `give E A` | end E is given out by the loop that holds it, and held by that of agent A |
//! | `holds A E` | says what the loop holds under the number E, and how often that has moved |
//! | `lose E` | port E is lost in flight |
//! | `shut E` | the loop closes end E, and a member parts first |
//!
//! It ends at the first line for which no call is there, and says which one that is and why.
#![tactic(auto)]

mod agent;
mod asking;
mod casting;
mod closing;
mod ending;
mod leaving;
mod lines;
mod making;
mod moving;
mod player;
mod posting;
mod reading;
mod seat;
mod sweeping;
mod taking;
mod told;
mod turning;

use hub_engine::{CountedReader, CountedWriter};
use reading::{Ended, play_input};
use std::process::ExitCode;
use std::{env, io};

fn main(rt: HostRuntime) -> ExitCode {
    let mut reader = CountedReader::new(rt.stdin());
    let mut writer = CountedWriter::new(io::writer(&rt));
    let Ended { status, note } = play_input(
        &rt,
        rt.alloc(),
        asks_for_loops(&rt),
        &mut reader,
        &mut writer,
    );
    if let Some(note) = &note {
        let _ = rt.eprintln(note.as_str());
    }
    ExitCode::from(status)
}

/// Whether the argument is `loops`. Arguments that are no text count as none, and so do all where
/// there is no memory for them.
fn asks_for_loops(rt: &HostRuntime) -> bool {
    match words_after_name(rt) {
        Some(words) => matches!(words.as_slice(), [word] if word.as_str() == "loops"),
        None => false,
    }
}

fn words_after_name(rt: &HostRuntime) -> Option<Vec<String>> {
    let args = env::args(rt).ok()?;
    args.skip(1).collect::<Vec<String>>(rt.alloc()).ok()
}
