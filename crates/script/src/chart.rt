// The chart text, which caches are opened from.
ghost use Rattle.std.specs.Prelude.{◌≤◌};

use script_lines::answers::Answer;
use script_lines::fields::Call;
use script_lines::input::Input;
use text::fields::Field::Number;

// The text stands at the start of the bytes. No list: they are lent whole for lines to be read into.
#[derive(Drop)]
pub struct Chart {
    bytes: [u8; 65536],
    length: usize,
    ghost in_bytes: { length ≤ 65536 },
}

impl Chart {
    pub fn new() -> Chart {
        Chart {
            bytes: [0; 65536],
            length: 0,
        }
    }

    pub fn text(&self) -> &[u8] {
        &self.bytes[..self.length]
    }

    // The lines that follow become the text, if they fit.
    pub fn read(&mut self, call: &Call<'_>, input: &mut Input) -> Option<Answer<'static>> {
        let [Number(count)] = call.fields() else {
            return None;
        };
        let mut bytes = [0; 65536];
        let length = input.read_lines(&mut bytes, *count)?;
        *self = Chart { bytes, length };
        Some(Answer::Counted("chart", length))
    }
}
