// Numbers as they are written: each is followed by a space.
ghost use Rattle.std.specs.Prelude.{◌≡◌, ◌+◌, ◌≤◌, ◌++◌, false, length, unsigned_abs};
ghost use Rattle.tokens.specs.Writer.{Written, is_below_zero, sign};

use crate::output::Output;

fn put_sign(output: &mut Output, is_negative: bool)
    requires { length output.old ≤ 16360 }
    ensures { output.new ≡ output.old ++ sign is_negative }
{
    if is_negative {
        output.push(b'-');
    }
}

fn put_number(output: &mut Output, is_negative: bool, magnitude: u64)
    ensures { Written is_negative magnitude output.old output.new }
{
    output.make_room();
    put_sign(output, is_negative);
    let mut digits = [0u8; 20];
    let n = io::decimal(magnitude, &mut digits);
    output.append(&digits[..n]);
    output.push(b' ');
}

pub fn absolute(number: i64) -> u64
    ensures { result ≡ unsigned_abs number }
{
    number.unsigned_abs()
}

pub fn put_u64(output: &mut Output, number: u64)
    ensures { Written false number output.old output.new }
{
    put_number(output, false, number);
}

pub fn put_i64(output: &mut Output, number: i64)
    ensures { Written (is_below_zero number) (unsigned_abs number) output.old output.new }
{
    put_number(output, number < 0, absolute(number));
}

pub fn put_count(output: &mut Output, count: usize) {
    put_u64(output, count as u64);
}

pub fn put_u8(output: &mut Output, number: u8) {
    put_u64(output, number as u64);
}

pub fn put_flag(output: &mut Output, flag: bool) {
    put_u64(output, flag as u64);
}
