// What a line says to do.

// One of the six calls.
#[derive(Clone, Copy)]
pub(crate) enum Call {
    Light,
    Clear,
    Replace,
    Haze,
    Band,
    Budget,
}

// A call, or a fill: of a part of a buffer, or of the mask.
#[derive(Clone, Copy)]
pub(crate) enum Command {
    Call(Call),
    Fill,
    Mask,
}

// The command of a line's first number. A number that is none of them stands for Clear.
impl From<u64> for Command {
    fn from(number: u64) -> Command {
        match number {
            1 => Command::Call(Call::Light),
            3 => Command::Call(Call::Replace),
            4 => Command::Call(Call::Haze),
            5 => Command::Call(Call::Band),
            6 => Command::Fill,
            7 => Command::Mask,
            8 => Command::Call(Call::Budget),
            _ => Command::Call(Call::Clear),
        }
    }
}
