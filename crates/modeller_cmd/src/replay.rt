// A script that is replayed on the model before its mark.
ghost use Rattle.std.specs.Prelude.{◌≡◌, ◌≢◌, ◌↔◌, ◌+◌, ◌*◌, ◌≤◌, ◌++◌, [], ◌∷◌, length, Err, IfErr, IfOk, IsErr, IsOk, IsTrue, OnErr, OnOk};
ghost use Rattle.edit_script.specs.Commands.{IsCommand};
ghost use Rattle.edit_script.specs.Marks.{before_mark};
ghost use Rattle.edit_script.specs.Scripts.{script_read};
ghost use Rattle.edit_session.specs.Sessions.{after_frame};
ghost use Rattle.fixed_ops.specs.Counts.{Counts};
ghost use Rattle.modeller_cmd.specs.Endings.{Ends, IsExecutionStop, IsHalt, IsRefusal, status_after};
ghost use Rattle.modeller_cmd.specs.Output.{input_limit, made, output_as};
ghost use Rattle.modeller_cmd.specs.Writing.{FailsToSend, Halted, Written};
ghost use Rattle.modeller_cmd.specs.Frames.{refused_line};
ghost use Rattle.modeller_cmd.specs.Replays.{cost_part, framed, parts_at, replayed, state_after};
ghost use Rattle.modeller_cmd.specs.Halting.{HaltsAt, HaltsScript};
ghost use Rattle.modeller_cmd.specs.Parts.{bytes_of_parts, work_of_parts};
ghost use Rattle.modeller_cmd.specs.Pending.{Draws, HaltsPlay, IsPlayed, WaitsOrSent};
ghost use Rattle.modeller_cmd.specs.declared.line.TheConstants.{LINE_LIMIT};
ghost use Rattle.modeller_cmd.specs.declared.pending.TheConstants.{PENDING_LIMIT};
ghost use Rattle.model_frames.specs.Work.{CountsWork};
ghost use Rattle.model_frames.specs.declared.frame.Frame.TheVariants as frames;
ghost use Rattle.modeller_io.specs.Count.{Stands};
ghost use Rattle.modeller_io.specs.Held.{Gains};
ghost use Rattle.solid_model.specs.Edits.{edited, FirstMakesClause};
ghost use Rattle.view_places.specs.Window.{FitsHeight, FitsMesh};

use crate::frame::{cost_line, header, refused_line, write_frame, write_image_frame};
use crate::image::make_room;
use crate::pending::PendingLines;
use crate::stop::Stop;
use clause_reader::read_model;
use edit_script::{Command, Commands, split_input};
use edit_session::Session;
use fixed_ops::Tally;
use modeller_io::{Failed, Sink};
use solid_model::{EditFault, EditRef};
use std::alloc::Global;
use view_places::View;
use view_settings::Job;

/// Replays the script of an input on the model before its mark. A frame is written as soon as it is
/// made, and the lines before it are written before it is drawn. Nothing is written before the whole
/// script was read.
///
/// `Refused`: the model is refused, or else the script, and nothing was written. `WriteFault`: the
/// sink failed, and has taken a proper prefix of the bytes. `NoMemory`: memory was refused, and the
/// sink has taken what the first commands write, and nothing of the next one.
pub fn replay<K: Sink>(
    alloc: Global,
    input: &[u8],
    out: &mut K,
    tally: &mut Tally,
) -> Result<(), Stop>
    requires { length input.now ≤ input_limit }
    ensures ends { Ends (made Job.Replay input.now) result }
    ensures stop { IfErr result IsExecutionStop }
    ensures written { OnOk result (Written K.held K.faults out.old out.new tally.old tally.new
        (output_as (made Job.Replay input.now)).parts) }
    ensures halted { IfErr result (Halted K.held K.faults out.old out.new tally.old tally.new
        (output_as (made Job.Replay input.now)).parts) }
    ensures refused { IsRefusal (status_after result)
        → (out.new ≡ out.old) × (tally.new ≡ tally.old) }
    ensures halts { IfErr result
        (HaltsScript K.held K.faults out.old out.new tally.old tally.new input.now) }
{
    let model = read_model(alloc, model_text(input))?;
    let commands = Commands::of(input)?;
    let session = Session::start(alloc, model);
    replay_commands(session, commands, Vec::new(alloc), out, tally)
}

// The text of the model in an input: what stands before the mark.
fn model_text(input: &[u8]) -> &[u8]
    ensures { result.now ≡ before_mark input.now }
{
    match split_input(input) {
        Some((start, _)) => &input[..start],
        None => input,
    }
}

// Replays commands one after the other, and drops what stands after them. The images and meshes are
// written from one buffer, and the lines between them go out together.
fn replay_commands<K: Sink>(
    mut session: Session,
    commands: Commands<'_>,
    mut buffer: Vec<u8>,
    out: &mut K,
    tally: &mut Tally,
) -> Result<(), Stop>
    ensures stop { IfErr result IsHalt }
    ensures written { OnOk result (Written K.held K.faults out.old out.new tally.old tally.new
        (replayed session commands.entry)) }
    ensures halted { IfErr result (Halted K.held K.faults out.old out.new tally.old tally.new
        (replayed session commands.entry)) }
    ensures ends { IfErr result (HaltsAt K.held K.faults out.old out.new tally.old tally.new
        session commands.entry) }
{
    let mut lines = PendingLines::new();
    play_commands(&mut session, commands, &mut lines, &mut buffer, out, tally)
}

// Replays commands one after the other. Nothing waits before the first one, and nothing after the last.
// Never inlined, as the loops of the other verbs are a fifth slower where one function holds them all.
#[inline(never)]
fn play_commands<K: Sink>(
    session: &mut Session,
    mut commands: Commands<'_>,
    lines: &mut PendingLines,
    buffer: &mut Vec<u8>,
    out: &mut K,
    tally: &mut Tally,
) -> Result<(), Stop>
    requires { lines.old ≡ [] }
    ensures stop { IfErr result IsHalt }
    ensures written { OnOk result (Written K.held K.faults out.old out.new tally.old tally.new
        (replayed session.old commands.entry)) }
    ensures halted { IfErr result (Halted K.held K.faults out.old out.new tally.old tally.new
        (replayed session.old commands.entry)) }
    ensures ends { IfErr result (HaltsAt K.held K.faults out.old out.new tally.old tally.new
        session.old commands.entry) }
{
    while let Some(command) = commands.next() {
        make_way(&command, lines, out)?;
        step(session, command, lines, buffer, out, tally)?;
    }
    Ok(lines.write(out)?)
}

// Writes the lines that wait, where a command draws a frame or there may be no room for its line.
fn make_way<K: Sink>(
    command: &Command<'_>,
    lines: &mut PendingLines,
    out: &mut K,
) -> Result<(), Failed>
    ensures sent { OnOk result
        (WaitsOrSent K.held K.faults out.old out.new lines.old lines.new) }
    ensures way { OnOk result (Draws command.now → lines.new ≡ []) }
    ensures room { OnOk result (length lines.new + 2 * LINE_LIMIT ≤ PENDING_LIMIT) }
    ensures failed { OnErr result (FailsToSend K.held K.faults out.old out.new lines.old) }
{
    if draws(command) || !lines.has_room() {
        lines.write(out)?;
    }
    Ok(())
}

// Whether a command draws a frame.
fn draws(command: &Command<'_>) -> bool
    ensures { IsTrue result ↔ Draws command.now }
{
    match command {
        Command::Render(_) | Command::Height(_) | Command::Mesh(_) | Command::Text => true,
        Command::Edit(..) | Command::Stray(_) | Command::Undo(_) | Command::Cost => false,
    }
}

// Replays one command, and drops it.
fn step<K: Sink>(
    session: &mut Session,
    command: Command<'_>,
    lines: &mut PendingLines,
    buffer: &mut Vec<u8>,
    out: &mut K,
    tally: &mut Tally,
) -> Result<(), Stop>
    requires command { IsCommand command }
    requires way { Draws command → lines.old ≡ [] }
    requires room { length lines.old + 2 * LINE_LIMIT ≤ PENDING_LIMIT }
    ensures stands { OnOk result (session.new ≡ state_after session.old command.entry) }
    ensures played { OnOk result (IsPlayed K.held K.faults out.old out.new tally.old tally.new
        lines.old lines.new (parts_at session.old command.entry)) }
    ensures halted { IfErr result (HaltsPlay K.held K.faults out.old out.new tally.old tally.new
        lines.old session.old command.entry) }
{
    play(session, &command, lines, buffer, out, tally)
}

// Replays one command.
fn play<K: Sink>(
    session: &mut Session,
    command: &Command<'_>,
    lines: &mut PendingLines,
    buffer: &mut Vec<u8>,
    out: &mut K,
    tally: &mut Tally,
) -> Result<(), Stop>
    requires command { IsCommand command.now }
    requires way { Draws command.now → lines.old ≡ [] }
    requires room { length lines.old + 2 * LINE_LIMIT ≤ PENDING_LIMIT }
    ensures stands { OnOk result (session.new ≡ state_after session.old command.now) }
    ensures played { OnOk result (IsPlayed K.held K.faults out.old out.new tally.old tally.new
        lines.old lines.new (parts_at session.old command.now)) }
    ensures halted { IfErr result (HaltsPlay K.held K.faults out.old out.new tally.old tally.new
        lines.old session.old command.now) }
{
    match command {
        Command::Edit(line, edit) => change(session, *line, edit, lines, out),
        Command::Stray(line) => refuse(*line, EditFault::UnknownName, lines, out),
        Command::Undo(line) => take_back(session, *line, lines, out),
        Command::Render(view) => show_image(session, view, buffer, out, tally),
        Command::Height(view) => show_height(session, view, out, tally),
        Command::Mesh(view) => show_mesh(session, view, buffer, out, tally),
        Command::Text => show_text(session, out),
        Command::Cost => {
            tell_cost(session, lines);
            Ok(())
        }
    }
}

// Draws a height map and writes it. It is drawn whole before its first byte is written.
fn show_height<K: Sink>(
    session: &mut Session,
    view: &View,
    out: &mut K,
    tally: &mut Tally,
) -> Result<(), Stop>
    requires { FitsHeight view.now }
    ensures stop { IfErr result IsHalt }
    ensures stands { OnOk result
        (session.new ≡ after_frame session.old (frames.Height view.now)) }
    ensures written { OnOk result (Written K.held K.faults out.old out.new tally.old tally.new
        (framed (frames.Height view.now) session.old ∷ [])) }
    ensures halted { IfErr result (Halted K.held K.faults out.old out.new tally.old tally.new
        (framed (frames.Height view.now) session.old ∷ [])) }
    ensures unwritten { result ≡ Err Stop.NoMemory → out.new ≡ out.old }
    ensures counted { result ≡ Err Stop.WriteFault → CountsWork tally.old tally.new
        (work_of_parts (framed (frames.Height view.now) session.old ∷ [])) }
{
    let bytes = session.height(view, tally)?;
    Ok(write_frame(out, b"height", &bytes)?)
}

// Writes the text of the model. It is made whole before its first byte is written, and takes no work.
fn show_text<K: Sink>(session: &Session, out: &mut K) -> Result<(), Stop>
    ensures stop { IfErr result IsHalt }
    ensures written { (counts : Counts) → OnOk result
        (Written K.held K.faults out.old out.new counts counts
        (framed frames.Text session.now ∷ [])) }
    ensures halted { (counts : Counts) → IfErr result
        (Halted K.held K.faults out.old out.new counts counts
        (framed frames.Text session.now ∷ [])) }
    ensures unwritten { result ≡ Err Stop.NoMemory → out.new ≡ out.old }
    ensures counted { (counts : Counts) → CountsWork counts counts
        (work_of_parts (framed frames.Text session.now ∷ [])) }
{
    let bytes = session.text()?;
    Ok(write_frame(out, b"text", &bytes)?)
}

// Draws an image and writes it. It is drawn whole, and all memory is taken, before its first byte is
// written.
fn show_image<K: Sink>(
    session: &mut Session,
    view: &View,
    buffer: &mut Vec<u8>,
    out: &mut K,
    tally: &mut Tally,
) -> Result<(), Stop>
    ensures stop { IfErr result IsHalt }
    ensures stands { OnOk result
        (session.new ≡ after_frame session.old (frames.Render view.now)) }
    ensures written { OnOk result (Written K.held K.faults out.old out.new tally.old tally.new
        (framed (frames.Render view.now) session.old ∷ [])) }
    ensures halted { IfErr result (Halted K.held K.faults out.old out.new tally.old tally.new
        (framed (frames.Render view.now) session.old ∷ [])) }
    ensures unwritten { result ≡ Err Stop.NoMemory → out.new ≡ out.old }
    ensures counted { result ≡ Err Stop.WriteFault → CountsWork tally.old tally.new
        (work_of_parts (framed (frames.Render view.now) session.old ∷ [])) }
{
    session.draw_raster(view, tally)?;
    make_room(view, buffer)?;
    Ok(write_image_frame(out, session, view, buffer)?)
}

// Draws a mesh and writes it. Its text is made whole, in the buffer, before its first byte is written.
fn show_mesh<K: Sink>(
    session: &mut Session,
    view: &View,
    buffer: &mut Vec<u8>,
    out: &mut K,
    tally: &mut Tally,
) -> Result<(), Stop>
    requires { FitsMesh view.now }
    ensures stop { IfErr result IsHalt }
    ensures stands { OnOk result (session.new ≡ after_frame session.old (frames.Mesh view.now)) }
    ensures written { OnOk result (Written K.held K.faults out.old out.new tally.old tally.new
        (framed (frames.Mesh view.now) session.old ∷ [])) }
    ensures halted { IfErr result (Halted K.held K.faults out.old out.new tally.old tally.new
        (framed (frames.Mesh view.now) session.old ∷ [])) }
    ensures unwritten { result ≡ Err Stop.NoMemory → out.new ≡ out.old }
    ensures counted { result ≡ Err Stop.WriteFault → CountsWork tally.old tally.new
        (work_of_parts (framed (frames.Mesh view.now) session.old ∷ [])) }
{
    session.draw_mesh(view, tally)?;
    session.mesh_text_in(buffer)?;
    Ok(write_frame(out, b"mesh", buffer)?)
}

// Tells what the last image took.
fn tell_cost(session: &Session, lines: &mut PendingLines)
    requires { length lines.old + 2 * LINE_LIMIT ≤ PENDING_LIMIT }
    ensures { lines.new ≡ lines.old ++ bytes_of_parts (cost_part session.now.cost ∷ []) }
{
    let (points, spans) = session.cost();
    let line = cost_line(points, spans);
    lines.push(&header(b"cost", line.bytes().len() as u64));
    lines.push(&line);
}

// Makes the edit of the line of this number, or says why it is refused. `NoMemory`: memory was
// refused, and the lines that waited are written.
fn change<K: Sink>(
    session: &mut Session,
    line: u32,
    edit: &EditRef<'_>,
    lines: &mut PendingLines,
    out: &mut K,
) -> Result<(), Stop>
    requires { length lines.old + 2 * LINE_LIMIT ≤ PENDING_LIMIT }
    ensures stop { IfErr result IsHalt }
    ensures stands { OnOk result (session.new ≡ state_after session.old (Command.Edit line edit.now)) }
    ensures said { OnOk result (lines.new ≡ lines.old
        ++ bytes_of_parts (parts_at session.old (Command.Edit line edit.now))) }
    ensures unsent { OnOk result (out.new ≡ out.old) }
    ensures wants { result ≡ Err Stop.NoMemory → IsOk (edited session.old.clauses edit.now) }
    ensures sent { result ≡ Err Stop.NoMemory → Gains K.held out.old out.new lines.old }
    ensures no_fault { result ≡ Err Stop.NoMemory → Stands K.faults out.old out.new }
    ensures failed { result ≡ Err Stop.WriteFault
        → FailsToSend K.held K.faults out.old out.new lines.old }
{
    match session.apply_lent(edit) {
        Ok(()) => Ok(()),
        Err(fault) => refuse(line, fault, lines, out),
    }
}

// Takes the last edit back, or says that the line of this number finds none. `NoMemory`: memory was
// refused, and the lines that waited are written.
fn take_back<K: Sink>(
    session: &mut Session,
    line: u32,
    lines: &mut PendingLines,
    out: &mut K,
) -> Result<(), Stop>
    requires { length lines.old + 2 * LINE_LIMIT ≤ PENDING_LIMIT }
    ensures stop { IfErr result IsHalt }
    ensures stands { OnOk result (session.new ≡ state_after session.old (Command.Undo line)) }
    ensures said { OnOk result (lines.new ≡ lines.old
        ++ bytes_of_parts (parts_at session.old (Command.Undo line))) }
    ensures unsent { OnOk result (out.new ≡ out.old) }
    ensures wants { result ≡ Err Stop.NoMemory → FirstMakesClause session.old.undo }
    ensures sent { result ≡ Err Stop.NoMemory → Gains K.held out.old out.new lines.old }
    ensures no_fault { result ≡ Err Stop.NoMemory → Stands K.faults out.old out.new }
    ensures failed { result ≡ Err Stop.WriteFault
        → FailsToSend K.held K.faults out.old out.new lines.old }
{
    match session.undo() {
        Ok(()) => Ok(()),
        Err(fault) => refuse(line, fault, lines, out),
    }
}

// Says why the edit or the undo of the line of this number is refused. Want of memory is no line, but
// the end, before which the lines that waited are written.
fn refuse<K: Sink>(
    line: u32,
    fault: EditFault,
    lines: &mut PendingLines,
    out: &mut K,
) -> Result<(), Stop>
    requires { length lines.old + 2 * LINE_LIMIT ≤ PENDING_LIMIT }
    ensures said { OnOk result (lines.new ≡ lines.old ++ refused_line line fault) }
    ensures unsent { OnOk result (out.new ≡ out.old) }
    ensures memory { IsErr result ↔ (fault ≡ EditFault.NoMemory) }
    ensures stop { IfErr result IsHalt }
    ensures sent { result ≡ Err Stop.NoMemory → Gains K.held out.old out.new lines.old }
    ensures no_fault { result ≡ Err Stop.NoMemory → Stands K.faults out.old out.new }
    ensures failed { result ≡ Err Stop.WriteFault
        → FailsToSend K.held K.faults out.old out.new lines.old }
{
    match fault {
        EditFault::NoMemory => {
            lines.write(out)?;
            Err(Stop::NoMemory)
        }
        _ => {
            lines.push(&refused_line(line, fault));
            Ok(())
        }
    }
}
