//! A scene is read from its text.

ghost use Rattle.std.specs.Prelude.{◌≡◌, ◌+◌, ◌<◌, ◌≤◌, ◌^◌, None, Ok, drop, length, vec_len, option_copied, IfOk, IfErr};
ghost use Rattle.am_script.specs.{lines_in, lines_of, played};
ghost use Rattle.am_world.specs.Capacity.{state_of};
ghost use Rattle.am_scenes.specs.Reading.{Arrives, IsScene, NoScene, StopsIn, so_far_of};
ghost use Rattle.am_scenes.specs.SceneLines.{scene_from};
ghost use Rattle.am_scenes.specs.SceneText.{scene_of};
ghost use Rattle.am_scenes.specs.SoFar.{nothing_said};
ghost use Rattle.am_scenes.specs.Way.{way_from};

use crate::asked::Asked;
use crate::fault::{SceneFault, SceneFaultKind, fault_at, fault_of_script};
use crate::gathered::Gathered;
use crate::line::{behind_lines, count_lines, whole_lines};
use crate::thread_name::ThreadName;
use crate::way::play_way;
use am_explore::Scene;
use am_script::ScriptFaultKind;
use am_script::visit::{Input, Opened, open_script};
use am_world::World;
use std::alloc::Global;

/// A scene, as a text tells it.
#[derive(Drop)]
pub struct Told {
    /// The world that the threads go on from: that of the script, behind its events.
    pub world: World,
    pub scene: Scene,
    /// The name of each thread, in the order of the threads.
    pub names: Vec<ThreadName>,
    /// The questions, in their order.
    pub asked: Vec<Asked>,
}

/// Reads a scene: the head and the events of a script, which are played, and then its threads, how
/// its daemon serves and its questions. It has the first fault of the text, or there is no memory. An
/// event that is refused is no fault, but where memory ran out for it.
pub fn read_scene(alloc: Global, input: &Input) -> Result<Told, SceneFault>
    requires { vec_len input.now.text < 2 ^ 62 }
    ensures ok { IfOk result (IsScene (scene_of input.now.broke input.now.text.items)) }
    ensures err { IfErr result (NoScene (length (lines_of
        (played input.now.broke input.now.text.items))) (scene_of input.now.broke
        input.now.text.items)) }
{
    let whole = whole_lines(input);
    match open_script(alloc, input) {
        Ok(Some(opened)) => read_behind(alloc, opened, whole),
        Ok(None) => Err(fault_at(count_lines(whole), SceneFaultKind::NoEvents)),
        Err(fault) => Err(fault_of_script(fault)),
    }
}

/// Reads the scene behind the head of these lines.
fn read_behind(alloc: Global, opened: Opened<'_>, whole: &[u8]) -> Result<Told, SceneFault>
    requires fits { opened.line ≤ 2 ^ 63 }
    requires short { length (lines_of whole.now) ≤ 2 ^ 63 }
    ensures ok { IfOk result (λ told. Arrives (way_from opened.entry.broke opened.entry.line
        (drop opened.entry.line (lines_of whole.now))) (state_of opened.entry.world)
        (state_of told.world) (Ok (so_far_of told))) }
    ensures err { IfErr result (StopsIn opened.entry.line
        (drop opened.entry.line (lines_of whole.now))
        (way_from opened.entry.broke opened.entry.line
        (drop opened.entry.line (lines_of whole.now))).scene) }
{
    let Opened {
        mut world,
        rest: _,
        line,
        broke,
    } = opened;
    match read_on(alloc, &mut world, behind_lines(whole, line), line, broke) {
        Ok(gathered) => Ok(gathered.told(world)),
        Err(fault) => {
            // It goes by a call, which is cheaper to check.
            drop(world);
            Err(fault)
        }
    }
}

/// Plays the way of these lines, behind so many, and gathers what the scene's lines say.
fn read_on(
    alloc: Global,
    world: &mut World,
    rest: Option<&[u8]>,
    line: u64,
    broke: Option<ScriptFaultKind>,
) -> Result<Gathered, SceneFault>
    requires { line + length (lines_in (option_copied rest)) ≤ 2 ^ 63 }
    ensures ok { IfOk result (λ gathered. Arrives (way_from broke line
        (lines_in (option_copied rest.entry))) (state_of world.old) (state_of world.new)
        (Ok gathered)) }
    ensures outside { IfOk result (λ gathered. gathered.within ≡ None) }
    ensures err { IfErr result (StopsIn line (lines_in (option_copied rest.entry))
        (way_from broke line (lines_in (option_copied rest.entry))).scene) }
{
    let arrival = play_way(alloc, world, rest, line)?;
    gather(alloc, arrival.rest, arrival.line, broke)
}

/// Gathers what these lines of a scene say, behind so many.
fn gather(
    alloc: Global,
    rest: Option<&[u8]>,
    line: u64,
    broke: Option<ScriptFaultKind>,
) -> Result<Gathered, SceneFault>
    requires { line + length (lines_in (option_copied rest)) ≤ 2 ^ 63 }
    ensures ok { IfOk result (λ gathered. scene_from broke nothing_said line
        (lines_in (option_copied rest.entry)) ≡ Ok gathered) }
    ensures outside { IfOk result (λ gathered. gathered.within ≡ None) }
    ensures err { IfErr result (StopsIn line (lines_in (option_copied rest.entry))
        (scene_from broke nothing_said line (lines_in (option_copied rest.entry)))) }
{
    let mut gathered = Gathered::new(alloc);
    match gathered.take_all(alloc, rest, line, broke) {
        Ok(()) => Ok(gathered),
        Err(fault) => {
            drop(gathered);
            Err(fault)
        }
    }
}
