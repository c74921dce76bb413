// One command list, laid into lent memory.
ghost use Rattle.sitankulo.specs.Lists.{write_asked, read_asked, ListLeft};

// The list that writes these bytes.
#[unsafe(no_mangle)]
pub extern "C" fn sitankulo_build_write(
    address: u32,
    bytes: &[u8],
    flags: u8,
    words: &mut [u8],
    fifo: &mut [u8],
) -> u32
    ensures { ListLeft (write_asked address bytes.now flags)
        result words.old words.new fifo.old fifo.new }
{
    sitankulo::lists::sitankulo_build_write(address, bytes, flags, words, fifo)
}

// The list that reads n bytes.
#[unsafe(no_mangle)]
pub extern "C" fn sitankulo_build_read(
    address: u32,
    n: usize,
    flags: u8,
    words: &mut [u8],
    fifo: &mut [u8],
) -> u32
    ensures { ListLeft (read_asked address n flags)
        result words.old words.new fifo.old fifo.new }
{
    sitankulo::lists::sitankulo_build_read(address, n, flags, words, fifo)
}
