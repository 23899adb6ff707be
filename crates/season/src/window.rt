// The bytes at hand: a part of a buffer that is filled from standard input.

ghost use Rattle.std.specs.Prelude.{◌≡◌, true, ◌<◌, IfOk, length};
ghost use Rattle.std.specs.Io.KnownBytes.{Consumes, IsAtEnd};
ghost use Rattle.season.specs.Window.{window_of, new_bytes, WindowIn, CanGrow, WithRoom, Grown};

use std::io::Read;

// Where they begin and end, and whether the input has ended behind them.
#[derive(Clone, Copy, Debug, PartialEq, Eq)]
pub struct Window {
    pub start: usize,
    pub end: usize,
    pub ended: bool,
}

// Standard input cannot be read; the bytes at hand are still there.
#[derive(Clone, Copy, Debug, PartialEq, Eq)]
pub struct ReadFailed {
    pub window: Window,
}

impl Window {
    // A window with room behind it. The bytes at hand are moved only when they reach the buffer's end.
    fn with_room(self, buffer: &mut [u8]) -> Window
        requires { CanGrow buffer.old self }
        ensures { WithRoom buffer.old self buffer.new result }
    {
        if self.end < buffer.len() {
            return self;
        }
        buffer.copy_within(self.start..self.end, 0);
        Window {
            start: 0,
            end: self.end - self.start,
            ..self
        }
    }

    // One read, behind the bytes at hand. Of a reader whose bytes are known it gives the first of these; it
    // ends only where there is none, if there is room.
    fn read_more<R: Read>(self, stdin: &mut R, buffer: &mut [u8]) -> Result<Window, ReadFailed>
        requires { WindowIn buffer.old self }
        ensures all_bytes { IfOk result (λ r. self.end < length buffer.old → r.ended ≡ true → IsAtEnd (R.remaining stdin.new)) }
        ensures grown { Grown buffer.old self buffer.new (window_of result) }
        ensures first_bytes { Consumes (R.remaining stdin.old) (R.remaining stdin.new) (new_bytes self buffer.new (window_of result)) }
    {
        match stdin.read(&mut buffer[self.end..]) {
            Ok(more) => Ok(Window {
                end: self.end + more,
                ended: more == 0,
                ..self
            }),
            Err(_) => {
                let window = Window {
                    ended: true,
                    ..self
                };
                Err(ReadFailed { window })
            }
        }
    }

    // More bytes behind those at hand, if the input has more.
    pub fn more_bytes<R: Read>(self, stdin: &mut R, buffer: &mut [u8]) -> Result<Window, ReadFailed>
        requires { CanGrow buffer.old self }
        ensures grown { Grown buffer.old self buffer.new (window_of result) }
        ensures first_bytes { Consumes (R.remaining stdin.old) (R.remaining stdin.new) (new_bytes self buffer.new (window_of result)) }
        ensures all_bytes { IfOk result (λ r. r.ended ≡ true → IsAtEnd (R.remaining stdin.new)) }
    {
        let moved = self.with_room(buffer);
        moved.read_more(stdin, buffer)
    }
}
