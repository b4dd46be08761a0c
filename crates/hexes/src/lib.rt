// Lines of hexadecimal digits, in either case, as bytes.
#![tactic(auto)]

ghost use Rattle.std.specs.Prelude.{◌≡◌, true, ◌&&◌, ℕ, ◌+◌, ◌*◌, ◌≤◌, ◌<◌, length, get_or, drop};
ghost use Rattle.std.proofs.lemmas.List.Edits.{sets};
ghost use Rattle.hexes.specs.Hex as spec;

// Whether a byte is a digit. No test here, and none below, decides where to go on: the compiler then takes many bytes at once.
fn is_digit(b: u8) -> bool
    ensures { result ≡ spec.is_digit b }
{
    (b'0' <= b) & (b <= b'9') | ((b'a' <= b) & (b <= b'f') | (b'A' <= b) & (b <= b'F'))
}

// The value of a digit, by its low bits: a letter is counted from ten.
fn digit(b: u8) -> u8
    requires { spec.is_digit b ≡ true }
    ensures { (result ≡ spec.digit_of b) × (result < 16) }
{
    b % 16 + 9 * (b / 64)
}

// Whether every byte of a short line is a digit.
fn few_digits(line: &[u8]) -> bool
    ensures { result ≡ spec.all_digits line.now }
{
    let mut all = true;
    for b in line {
        all = all & is_digit(*b);
    }
    all
}

// Whether thirty-two bytes are.
fn are_digits(line: &[u8], at: usize) -> bool
    requires { at + 32 ≤ length line.now }
    ensures { (result && spec.all_digits (drop (at + 32) line.now)) ≡ spec.all_digits (drop at line.now) }
{
    let mut all = true;
    for i in 0..32 {
        all = all & is_digit(line[at + i]);
    }
    all
}

// Whether every byte is a digit. The last thirty-two are looked at last, and some of them perhaps again: so none is left over. The loop is left at
// the first that are not, so that the compiler does not take one byte of many blocks at once.
fn all_digits(line: &[u8]) -> bool
    ensures { result ≡ spec.all_digits line.now }
{
    let n = line.len();
    if n < 32 {
        return few_digits(line);
    }
    for i in (0..n - 32).step_by(32) {
        if !are_digits(line, i) {
            return false;
        }
    }
    are_digits(line, n - 32)
}

// The byte that the digits at a place of a line stand for.
fn byte_of(line: &[u8], i: usize) -> u8
    requires { (spec.all_digits line.now ≡ true) × (2 * i + 1 < length line.now) }
    ensures { result ≡ spec.digit_of (get_or line.now (2 * i) 0) * 16 + spec.digit_of (get_or line.now (2 * i + 1) 0) }
{
    digit(line[2 * i]) * 16 + digit(line[2 * i + 1])
}

// The bytes of a short line, at the front of a frame with room for them.
fn put_few(line: &[u8], frame: &mut [u8])
    requires { (spec.all_digits line.now ≡ true) × (spec.half line.now ≤ length frame.old) }
    ensures { frame.new ≡ sets frame.old 0 (spec.bytes_of line.now) }
{
    for i in 0..line.len() / 2 {
        frame[i] = byte_of(line, i);
    }
}

// Sixteen bytes from a place on. Their number is fixed, so that the compiler makes them of two loads.
fn sixteen(line: &[u8], at: usize) -> [u8; 16]
    requires { (spec.all_digits line.now ≡ true) × (at + 16 ≤ spec.half line.now) }
    ensures { (i : ℕ) → i < 16 → get_or result i 0 ≡ spec.digit_of (get_or line.now (2 * (at + i)) 0) * 16 + spec.digit_of (get_or line.now (2 * (at + i) + 1) 0) }
{
    let mut bytes = [0u8; 16];
    for i in 0..16 {
        bytes[i] = byte_of(line, at + i);
    }
    bytes
}

// The same put at their place, so that those still to come stand behind them. They are made before any is stored: the compiler need not ask whether
// a store changes the line.
fn put_sixteen(line: &[u8], frame: &mut [u8], at: usize)
    requires { (spec.all_digits line.now ≡ true) × (spec.half line.now ≤ length frame.old) × (at + 16 ≤ spec.half line.now) }
    ensures { sets frame.new (at + 16) (spec.bytes_of (drop (2 * (at + 16)) line.now)) ≡ sets frame.old at (spec.bytes_of (drop (2 * at) line.now)) }
{
    let bytes = sixteen(line, at);
    frame[at..at + 16].copy_from_slice(&bytes);
}

// The bytes that digits stand for, at the front of a frame with room for them. The last sixteen are put last, and some of them perhaps again:
// so none is left over. The test in the loop is for the compiler, as above.
fn put_bytes(line: &[u8], frame: &mut [u8])
    requires { (spec.all_digits line.now ≡ true) × (spec.half line.now ≤ length frame.old) }
    ensures { frame.new ≡ sets frame.old 0 (spec.bytes_of line.now) }
{
    let half = line.len() / 2;
    if half < 16 {
        put_few(line, frame);
        return;
    }
    for i in (0..half - 16).step_by(16) {
        put_sixteen(line, frame, i);
        if line[2 * i] == b'\n' {
            // never: it is a digit
            return;
        }
    }
    put_sixteen(line, frame, half - 16);
}

// The bytes that a line stands for, at the front of the frame. If it is none of digits, or of more bytes than the frame has room for,
// nothing is stored.
pub fn decode(line: &[u8], frame: &mut [u8]) -> Option<usize>
    ensures value { result ≡ spec.decoded line.now (length frame.old) }
    ensures frame_after { frame.new ≡ spec.decoded_into line.now frame.old }
{
    if line.len() % 2 != 0 {
        return None;
    }
    if frame.len() < line.len() / 2 {
        return None;
    }
    if all_digits(line) {
        put_bytes(line, frame);
        return Some(line.len() / 2);
    }
    None
}
