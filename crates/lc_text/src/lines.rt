//! The lines of a script.
ghost use Rattle.std.specs.Prelude.{◌≡◌, ◌≢◌, ◌<◌, ◌≤◌, ◌++◌, [], ◌∷◌, length, slice_index, ℕ};
ghost use Rattle.std.specs.Str.Lines.{strip_carriage_return};
ghost use Rattle.lc_text.specs.Lines.{script_lines};

/// The first line, without what ends it, and what stands after it.
pub fn first_line(script: &[u8]) -> (&[u8], &[u8])
    requires { 0 < length script.now }
    ensures lines { script_lines script.now ≡ result.0.now ∷ script_lines result.1.now }
    ensures shorter { length result.1.now < length script.now }
{
    let end = feed_at(script);
    if end == script.len() {
        return (script, &[]);
    }
    (without_return(&script[..end]), &script[end + 1..])
}

// The place of the first line feed, or the length where there is none.
fn feed_at(bytes: &[u8]) -> usize
    ensures within { result ≤ length bytes.now }
    ensures before { (k : ℕ) → k < result → slice_index bytes.now k ≢ 10 }
    ensures found { result < length bytes.now → slice_index bytes.now result ≡ 10 }
{
    for (place, byte) in bytes.iter().enumerate() {
        if *byte == b'\n' {
            return place;
        }
    }
    bytes.len()
}

// Without the one carriage return at the end, if there is one.
fn without_return(line: &[u8]) -> &[u8]
    ensures { result.now ≡ strip_carriage_return line.now }
{
    match line {
        [front @ .., b'\r'] => front,
        _ => line,
    }
}
