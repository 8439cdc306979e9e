// The room of the bits in the work space, eight in a byte; their count stands behind them in two bytes. specs/Layout says how it follows from the limits of document 01.
pub const BITS_ROOM: usize = 512;
