// The gate as a program: a script comes on standard input, and what happens is printed. Each line is read and played, and all that it brings about is printed,
// before the next one is looked at. One line and one event are held at a time, in buffers that are used again, so that memory does not grow with the script.
#![tactic(auto)]

mod line;
mod lines;
mod player;
mod stop;
mod unread;

use crate::lines::Lines;
use crate::player::Player;
use crate::stop::Stop;
use rules::Rule;
use script::progress::Script;
use script::statement::Sender;
use std::io::{BufRead, BufReader, Write};
use std::process::ExitCode;

// Plays the events, of which the first has been read.
fn play_events<R: BufRead + Drop, W: Write>(
    lines: &mut Lines<R>,
    script: &Script,
    first: Sender,
    player: &mut Player<'_>,
    output: &mut W,
) -> Result<(), Stop> {
    let mut sender = first;
    // counted, since no clause says that the input ends
    for _ in 0..u64::MAX {
        player.play(sender, lines.bytes())?;
        output.write_all(player.text())?;
        output.flush()?;
        player.printed();
        let Some(next) = lines.next_event(script)? else {
            break;
        };
        sender = next;
    }
    Ok(())
}

fn run(rt: &HostRuntime) -> Result<(), Stop> {
    let mut lines = Lines::new(rt.alloc(), BufReader::new(rt.alloc(), rt.stdin())?);
    let mut script = script_laws::start(rt.alloc());
    let Some(first) = lines.first_event(&mut script)? else {
        return Ok(());
    };
    let hosts = script_laws::lend_hosts(rt.alloc(), &script)?;
    let rules: Vec<&[Rule<'_>]> = hosts
        .rules
        .iter()
        .map(|rules| rules.as_slice())
        .collect(rt.alloc())?;
    let mut player = Player::new(rt.alloc(), &hosts.names, &rules)?;
    play_events(&mut lines, &script, first, &mut player, &mut rt.stdout())
}

fn main(rt: HostRuntime) -> ExitCode {
    let Err(stop) = run(&rt) else {
        return ExitCode::SUCCESS;
    };
    let _ = eprintln!(rt; "{stop}");
    ExitCode::FAILURE
}
