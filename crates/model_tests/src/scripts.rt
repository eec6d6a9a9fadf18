ghost use Rattle.std.specs.Prelude.{◌^◌, ◌<◌, length};

use crate::starts::read;
use crate::walks::says;
use edit_script::{Command, Commands, ScriptFault, ScriptReason, read_script, split_input};
use solid_model::EditedModel;
use std::alloc::Global;
use std::process::Abort;
use std::test::Fail;

// Inputs, and where their first mark line begins and ends.
const MARKS: [(&[u8], Option<(usize, usize)>); 9] = [
    (b"", None),
    (b"x var-x\n% %\n%%%\n#%%\n%% x\n", None),
    (b"%%", Some((0, 2))),
    (b"%%\n", Some((0, 3))),
    (b"x var-x\n%%\ntext\n", Some((8, 11))),
    (b"x var-x\n \t%%\r", Some((8, 13))),
    (b"x var-x\r\n\n  %% \ncut x\n%%\n", Some((10, 16))),
    (b"%% #\n%%\n%%\n", Some((5, 8))),
    (b"\n\n%%\nrender w=0", Some((2, 5))),
];

fn expect_marks(rt: &impl Abort, rows: &[(&[u8], Option<(usize, usize)>)]) {
    for (input, ends) in rows {
        assert!(rt; split_input(input) == *ends, "{input:?}");
    }
}

#[test]
fn finds_the_first_mark_line(rt: HostRuntime) {
    expect_marks(&rt, &MARKS);
}

// Why reading all commands of an input is refused.
fn fault(alloc: Global, input: &[u8]) -> Option<ScriptFault>
    requires { length input.now < 2 ^ 32 }
{
    read_script(alloc, input).err()
}

// Each input is refused at its line for its reason, also where the commands are given one by one.
fn expect_refusals(rt: &impl Abort, alloc: Global, rows: &[(&[u8], u32, ScriptReason)]) {
    for (input, line, reason) in rows {
        assert!(rt; input.len() < 1 << 32);
        let (line, reason) = (*line, *reason);
        let wanted = Some(ScriptFault { line, reason });
        let is_refused = Commands::of(input).err() == wanted && fault(alloc, input) == wanted;
        assert!(rt; is_refused, "{input:?}");
    }
}

const BAD_LINES: [(&[u8], u32, ScriptReason); 19] = [
    (b"", 0, ScriptReason::NoMark),
    (b"x var-x\nrender\n", 0, ScriptReason::NoMark),
    (b"x var-x\n%% render\n", 0, ScriptReason::NoMark),
    (b"x var-x\n%%\nrender w=0", 3, ScriptReason::BadSetting),
    (b"x var-x\n%%\npaint", 3, ScriptReason::UnknownCommand),
    (b"x var-x\n%%\ncut", 3, ScriptReason::TooShort),
    (b"x var-x\n%%\nadd #y var-x", 3, ScriptReason::BadName),
    (b"x var-x\n%%\ntext x", 3, ScriptReason::WrongArity),
    (b"x var-x\n%%\ncost 1", 3, ScriptReason::WrongArity),
    (b"x var-x\n%%\nundo\nundo x", 4, ScriptReason::WrongArity),
    (b"x var-x\n%%\nundo #", 3, ScriptReason::WrongArity),
    (b"%%\n%%", 2, ScriptReason::UnknownCommand),
    (b"%%\nUndo", 2, ScriptReason::UnknownCommand),
    (b"%%\nundo#", 2, ScriptReason::UnknownCommand),
    (b"%%\nCost", 2, ScriptReason::UnknownCommand),
    (b"%%\ncost#", 2, ScriptReason::UnknownCommand),
    (b"%%\nRender", 2, ScriptReason::UnknownCommand),
    (b"%%\nshade", 2, ScriptReason::UnknownCommand),
    (
        b"%%\ntext\n\n# cut\n \t\r\nset\nadd",
        6,
        ScriptReason::TooShort,
    ),
];

#[test]
fn refuses_the_first_bad_line(rt: HostRuntime) {
    expect_refusals(&rt, rt.alloc(), &BAD_LINES);
}

const LOWEST: [(&[u8], u32, ScriptReason); 12] = [
    (b"%%\nset #x", 2, ScriptReason::TooShort),
    (b"%%\nadd #x", 2, ScriptReason::TooShort),
    (b"%%\nput x #y", 2, ScriptReason::TooShort),
    (b"%%\nput x", 2, ScriptReason::TooShort),
    (b"%%\nput x #y paint", 2, ScriptReason::BadName),
    (b"%%\nset #x #y", 2, ScriptReason::UnknownOperation),
    (b"%%\nput #x y neg", 2, ScriptReason::WrongArity),
    (b"%%\nset x min #a", 2, ScriptReason::WrongArity),
    (b"%%\nset x const 1 a", 2, ScriptReason::WrongArity),
    (b"%%\ncut #x #y", 2, ScriptReason::WrongArity),
    (b"%%\nset x const #1", 2, ScriptReason::BadNumeral),
    (b"%%\nadd x const 1e", 2, ScriptReason::BadNumeral),
];

#[test]
fn tells_the_lowest_reason(rt: HostRuntime) {
    expect_refusals(&rt, rt.alloc(), &LOWEST);
}

const BAD_SETTINGS: [(&[u8], u32, ScriptReason); 10] = [
    (b"%%\nrender w", 2, ScriptReason::BadSetting),
    (b"%%\nrender d=1", 2, ScriptReason::BadSetting),
    (b"%%\nheight w=1025", 2, ScriptReason::BadSetting),
    (b"%%\nrender w=1 w=1", 2, ScriptReason::BadSetting),
    (b"%%\nrender x0=a", 2, ScriptReason::BadSetting),
    (b"%%\nmesh x0=0 x1=0", 2, ScriptReason::BadSetting),
    (b"%%\nmesh nx=513", 2, ScriptReason::BadSetting),
    (b"%%\nmesh nx=512 ny=512 nz=65", 2, ScriptReason::BadSetting),
    (b"%%\nheight nx=3", 2, ScriptReason::BadSetting),
    (b"%%\nrender x0=1 x1=0", 2, ScriptReason::BadSetting),
];

#[test]
fn refuses_settings(rt: HostRuntime) {
    expect_refusals(&rt, rt.alloc(), &BAD_SETTINGS);
}

const SCRIPT: &[u8] = b"x var-x\n%%\r\nset x neg #y\nset #x var-x\nput #x y var-x\ncut #x\n\n# c\n\
    add y min x x\nput y c const 0.5\nset y var-z\ncut y\n\
    render w=3 z=0.5\nheight w=1024 d=300\nmesh n=5\ntext\n cost \n undo ";

#[test]
fn reads_each_command(rt: HostRuntime) -> Result<(), Fail> {
    let commands = read_script(rt.alloc(), SCRIPT)?;
    expect_commands(&rt, rt.alloc(), &commands)
}

fn expect_commands(rt: &impl Abort, alloc: Global, commands: &[Command<'_>]) -> Result<(), Fail> {
    let [a, b, c, d, e, f, g, h, others @ ..] = commands else {
        return Err(Fail::new("too few commands"));
    };
    assert!(rt;
        [(a, 3), (b, 4), (c, 5), (d, 6)]
            .iter()
            .all(|(at, line)| is_stray(at, *line))
    );
    assert!(rt; draw_and_end(others));
    let edits: [(&Command<'_>, u32, &[u8]); 4] = [
        (e, 9, b"x var-x\ny min x x\n"),
        (f, 10, b"x var-x\nc const 0.5000000000\ny min x x\n"),
        (g, 11, b"x var-x\nc const 0.5000000000\ny var-z\n"),
        (h, 12, b"x var-x\nc const 0.5000000000\n"),
    ];
    let mut model = EditedModel::start(alloc, read(alloc, b"x var-x\n")?);
    expect_edits(rt, alloc, &mut model, &edits)
}

// Each command is an edit on its line, and leaves a model of its text.
fn expect_edits(
    rt: &impl Abort,
    alloc: Global,
    model: &mut EditedModel,
    edits: &[(&Command<'_>, u32, &[u8])],
) -> Result<(), Fail> {
    for (command, line, text) in edits {
        assert!(rt;
            leaves(alloc, model, command, *line, text)?,
            "on line {line}"
        );
    }
    Ok(())
}

fn leaves(
    alloc: Global,
    model: &mut EditedModel,
    command: &Command<'_>,
    line: u32,
    text: &[u8],
) -> Result<bool, Fail> {
    match command {
        Command::Edit(number, edit) => {
            model.edit_lent(edit)?;
            Ok(*number == line && says(alloc, model.model(), text)?)
        }
        _ => Ok(false),
    }
}

fn is_stray(command: &Command<'_>, line: u32) -> bool {
    matches!(command, Command::Stray(number) if *number == line)
}

// Whether these are the commands behind the edits.
fn draw_and_end(commands: &[Command<'_>]) -> bool {
    match commands {
        [image, map, mesh, text, cost, undo] => {
            matches!(image, Command::Render(view) if (view.w, view.z) == (3, 1 << 31))
                && matches!(map, Command::Height(view) if (view.w, view.d) == (1024, 300))
                && matches!(mesh, Command::Mesh(view) if (view.nx, view.h) == (5, 512))
                && matches!(text, Command::Text)
                && matches!(cost, Command::Cost)
                && matches!(undo, Command::Undo(18))
        }
        _ => false,
    }
}

// Whether the commands are these, one by one, and then none.
fn gives_three(commands: &mut Commands<'_>) -> bool {
    matches!(commands.next(), Some(Command::Text))
        && matches!(commands.next(), Some(Command::Undo(6)))
        && matches!(commands.next(), Some(Command::Stray(7)))
        && commands.next().is_none()
        && commands.next().is_none()
}

#[test]
fn gives_the_commands_one_by_one(rt: HostRuntime) -> Result<(), Fail> {
    let mut commands = Commands::of(b"x var-x\n%%\ntext\n\n# c\nundo\nset #x var-x")?;
    assert!(rt; gives_three(&mut commands));
    Ok(())
}
