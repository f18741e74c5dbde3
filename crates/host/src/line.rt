// Command lines.
ghost use Rattle.std.specs.Prelude.{◌≡◌};
ghost use Rattle.commands.specs.Line.{read_of};
ghost use Rattle.host.specs.Line.{command_of};

use commands::line;

// Stays: a C struct holds no enum with values, so a refusal, a kind and a code are numbers, 0 for none.
#[repr(C)]
#[derive(Clone, Copy, Default)]
pub struct Command {
    // The places of the argument in the line, the second not counted.
    pub from: usize,
    pub to: usize,
    // 1 to 12, in document 01's order.
    pub verb: u8,
    pub refused: u8,
}

#[unsafe(no_mangle)]
pub extern "C" fn cob_line_read(line: &[u8]) -> Command
    ensures { result ≡ command_of (read_of line.now) }
{
    match line::read(line) {
        Ok(command) => Command {
            from: command.from,
            to: command.to,
            verb: u8::from(command.verb),
            refused: 0,
        },
        Err(refusal) => Command {
            refused: u8::from(refusal),
            ..Command::default()
        },
    }
}
