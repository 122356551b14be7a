// Answers as text. What cannot be written is passed over.

// Bytes as they stand, which need not be text.
pub(crate) fn bytes(rt: &impl Print, s: &[u8]) {
    let _ = rt.write_all(s);
}
