//! How bytes are shown in lines.
use std::io::Result;

// A reply has so many bytes and no end of line.
const LONGEST: usize = 200;

/// Prints each line of what a stream got, and bytes that end no line in pieces of up to 200. The stream's name
/// comes before each, and how many spaces it ends with after it. A dot stands for a byte of zero.
pub fn tell(rt: &HostRuntime, stream: &str, bytes: &[u8]) -> Result<()> {
    for line in bytes.split_inclusive(|byte| *byte == b'\n') {
        match line.strip_suffix(b"\n") {
            Some(whole) => tell_row(rt, stream, whole, "")?,
            None => tell_pieces(rt, stream, line)?,
        }
    }
    Ok(())
}

// Bytes that end no line.
fn tell_pieces(rt: &HostRuntime, stream: &str, bytes: &[u8]) -> Result<()> {
    for piece in bytes.chunks(LONGEST) {
        tell_row(rt, stream, piece, " (no end of line)")?;
    }
    Ok(())
}

fn tell_row(rt: &HostRuntime, stream: &str, bytes: &[u8], mark: &str) -> Result<()> {
    let text = String::from_utf8_lossy(rt.alloc(), bytes)?;
    let shown = text.as_str().replace(rt.alloc(), '\0', ".")?;
    print_row(rt, stream, shown.as_str(), mark)
}

fn print_row(rt: &HostRuntime, stream: &str, text: &str, mark: &str) -> Result<()> {
    let kept = text.trim_end_matches(' ');
    let spaces = text.len() - kept.len();
    let gap = if kept.is_empty() { "" } else { " " };
    if spaces > 0 {
        println!(rt; "  {stream}:{gap}{kept} and {spaces} spaces{mark}")
    } else {
        println!(rt; "  {stream}:{gap}{kept}{mark}")
    }
}
