// Bytes written into a buffer.
ghost use Rattle.clause_text.specs.Writing.{Writes};

// Writes bytes behind a place, if there is room, and gives the place behind them.
pub(crate) fn write_bytes(bytes: &[u8], buffer: &mut [u8], place: usize) -> usize
    ensures { Writes bytes.now buffer.old place buffer.new result }
{
    if buffer.len() < place || buffer.len() - place < bytes.len() {
        return place;
    }
    let end = place + bytes.len();
    buffer[place..end].copy_from_slice(bytes);
    end
}
