// What is written.

// Writes bytes. Where that fails, they are passed over.
pub fn write(out: &impl Print, bytes: &[u8]) {
    let _ = out.write_all(bytes);
}

// Writes a line: the digits of `bytes`, or a dash where there are none.
pub fn print_digits(out: &impl Print, bytes: &[u8]) {
    if bytes.is_empty() {
        return write(out, b"-\n");
    }
    for piece in bytes.chunks(256) {
        let mut room = [0; 512];
        let digits = &mut room[..2 * piece.len()];
        hex::encode_to_slice(piece, digits).unwrap();
        digits.make_ascii_uppercase();
        write(out, digits);
    }
    write(out, b"\n");
}
