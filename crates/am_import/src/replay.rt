//! A script is played as it is written.

ghost use Rattle.std.specs.Prelude.{◌≡◌, ◌⊎◌, ◌+◌, ◌<◌, ◌≤◌, ◌^◌, None, option_copied, vec_len, IfOk, IfErr, OnOk};
ghost use Rattle.am_import.specs.declared.imports.ImportFault.TheVariants.{NoMemory, NotPlayed};
ghost use Rattle.am_import.specs.Imported.{IsPlayingFault, Leaves};
ghost use Rattle.am_import.specs.Played.{IsBehindFault};
ghost use Rattle.am_mountinfo.specs.{EventsPlayed};
ghost use Rattle.am_script.specs.declared.fault.ScriptFaultKind.TheVariants as kinds;
ghost use Rattle.am_script.specs.{Summary, events_from, lines_in, size_in};
ghost use Rattle.am_world.specs.Capacity.{state_of};

use crate::imports::ImportFault;
use am_mountinfo::world_text::play_events;
use am_script::visit::{Input, Opened, open_script};
use am_script::{ScriptFault, ScriptFaultKind};
use am_world::World;
use std::alloc::Global;

/// A script, and the world that it leaves.
#[derive(Drop)]
pub(crate) struct Played {
    pub script: Vec<u8>,
    pub world: World,
}

/// The longest script that is played.
const LONGEST: usize = 1 << 61;

fn fault_of(fault: ScriptFault) -> ImportFault
    ensures memory { fault.kind ≡ kinds.NoMemory → result ≡ NoMemory }
    ensures one { (result ≡ NoMemory) ⊎ (result ≡ NotPlayed) }
{
    match fault.kind {
        ScriptFaultKind::NoMemory => ImportFault::NoMemory,
        _ => ImportFault::NotPlayed,
    }
}

/// Plays the events behind a head. None of them may be refused; where one finds no memory, it isn't the script's.
fn world_behind(alloc: Global, opened: Opened<'_>) -> Result<World, ImportFault>
    requires fits { opened.line + size_in (option_copied opened.rest) ≤ 2 ^ 63 }
    ensures ok { IfOk result (λ world. (summary : Summary) × EventsPlayed (state_of opened.entry.world)
        (events_from opened.entry.broke opened.entry.line
        (lines_in (option_copied opened.entry.rest))) (state_of world) summary × (summary.refused ≡ 0)) }
    ensures whole { OnOk result (opened.entry.broke ≡ None) }
    ensures err { IfErr result (IsBehindFault (state_of opened.entry.world)
        (events_from opened.entry.broke opened.entry.line
        (lines_in (option_copied opened.entry.rest)))) }
{
    let Opened {
        mut world,
        rest,
        line,
        broke,
    } = opened;
    match play_events(alloc, &mut world, rest, line, broke) {
        Ok(played) => {
            if played.summary.refused > 0 {
                drop(world);
                return Err(ImportFault::NotPlayed);
            }
            Ok(world)
        }
        Err(fault) => {
            drop(world);
            Err(fault_of(fault))
        }
    }
}

/// Plays a script that was read.
fn world_of(alloc: Global, input: &Input) -> Result<World, ImportFault>
    requires short { vec_len input.now.text < 2 ^ 62 }
    requires whole { input.now.broke ≡ None }
    ensures ok { IfOk result (λ world. Leaves input.now.text.items (state_of world)) }
    ensures err { IfErr result (IsPlayingFault input.now.text.items) }
{
    match open_script(alloc, input) {
        Ok(Some(opened)) => world_behind(alloc, opened),
        Ok(None) => Err(ImportFault::NotPlayed),
        Err(fault) => Err(fault_of(fault)),
    }
}

/// Plays a script from its head to its last event.
pub(crate) fn replayed(alloc: Global, script: Vec<u8>) -> Result<Played, ImportFault>
    ensures leaves { IfOk result (λ played. Leaves played.script.items (state_of played.world)) }
    ensures script { IfOk result (λ played. played.script.items ≡ script.items) }
    ensures err { IfErr result (IsPlayingFault script.items) }
{
    if script.len() > LONGEST {
        return Err(ImportFault::NoMemory);
    }
    let input = Input {
        text: script,
        broke: None,
    };
    let world = world_of(alloc, &input)?;
    Ok(Played {
        script: input.text,
        world,
    })
}
