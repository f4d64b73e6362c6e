// The decimal numbers of a line, and the parts of a buffer that they name.
ghost use Rattle.std.specs.Prelude.{◌≤◌, ◌<◌};

// The number v with one digit more; a number that grows past 64 bits stays as it is.
fn with_digit(v: u64, digit: u8) -> u64 {
    v.checked_mul(10)
        .and_then(|tens| tens.checked_add(u64::from(digit)))
        .unwrap_or(v)
}

// How far a line is read: the numbers that are ended, how many they are, and the number that is being read.
#[derive(Drop)]
struct Reading {
    numbers: [u64; 24],
    count: usize,
    value: u64,
}

impl Reading {
    // One byte more: a digit goes to the number, any other byte ends it. Numbers past the last place are passed over.
    fn step(&mut self, b: u8) {
        match b {
            b'0'..=b'9' => {
                self.value = with_digit(self.value, b - b'0');
            }
            _ => {
                if self.count < 24 {
                    self.numbers[self.count] = self.value;
                    self.count += 1;
                    self.value = 0;
                }
            }
        }
    }
}

// The numbers of a line, in order, and 0 where there are no more, as the input has it.
pub(crate) fn numbers(line: &[u8]) -> [u64; 24] {
    let mut reading = Reading {
        numbers: [0; 24],
        count: 0,
        value: 0,
    };
    for b in line {
        reading.step(*b);
    }
    reading.numbers
}

// The k-th number, at most `most`.
fn at_most(args: &[u64; 24], k: usize, most: usize) -> usize
    requires { k < 24 }
    ensures { result ≤ most }
{
    args[k].min(most as u64) as usize
}

// As many entries of a buffer as the k-th number says, from the first on, as far as the buffer reaches.
pub(crate) fn front<'a, T>(buffer: &'a mut [T], args: &[u64; 24], k: usize) -> &'a mut [T]
    requires { k < 24 }
{
    let n = at_most(args, k, buffer.len());
    &mut buffer[..n]
}

// The same, from the entry on that the number `first` says.
pub(crate) fn part<'a, T>(
    buffer: &'a mut [T],
    args: &[u64; 24],
    first: usize,
    k: usize,
) -> &'a mut [T]
    requires { (first < 24) × (k < 24) }
{
    let from = at_most(args, first, buffer.len());
    front(&mut buffer[from..], args, k)
}
