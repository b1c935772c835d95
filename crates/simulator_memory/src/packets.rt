// Packets and images by number, from 1 as they are made: each in a row of one size.
ghost use Rattle.std.specs.Prelude.{◌≡◌, List, ℕ, ◌+◌, ◌*◌, ◌≤◌, length};
ghost use Rattle.model.specs.Limits.{greatest_image};
ghost use Rattle.simulator_memory.specs.Store.{row_size, lesser_of, packet_in, packet_for, numbered, put_in, packets_in};
ghost use Rattle.simulator_memory.specs.Store.{Filled};

use model::constants;

// A row: the bytes of a packet's length, and room for the longest image.
const ROW_HEAD: usize = 4;

pub const ROW: usize = ROW_HEAD + constants::GREATEST_IMAGE;

pub fn lesser(i: usize, j: usize) -> usize
    ensures { result ≡ lesser_of i j }
{
    i.min(j)
}

// The row of a packet by its number, of as many as were made.
pub fn place_of(count: u32, number: u32) -> Option<u32>
    ensures { ((store : List ℕ) → packet_for store result ≡ numbered (packets_in store count) number)
        × Filled count result }
{
    let row = number.checked_sub(1)?;
    if row < count {
        return Some(row);
    }
    None
}

// The packet of a row.
pub fn packet_at<'a>(store: &'a [u8], row: u32) -> &'a [u8]
    requires { row_size * (row + 1) ≤ length store.now }
    ensures { result.now ≡ packet_in store.now row }
{
    let at = ROW * (row as usize);
    let number = format_numbers::read_u32(store, at);
    let from = at + ROW_HEAD;
    let to = from + lesser(number as usize, constants::GREATEST_IMAGE);
    &store[from..to]
}

// Puts a packet into a row.
pub fn put_packet(store: &mut [u8], row: u32, packet: &[u8])
    requires { (row_size * (row + 1) ≤ length store.old) × (length packet.now ≤ greatest_image) }
    ensures { store.new ≡ put_in store.old row packet.now }
{
    let at = ROW * (row as usize);
    format_numbers::write_u32(store, at, packet.len() as u32);
    let from = at + ROW_HEAD;
    format_numbers::copy_bytes(&mut store[from..], packet);
}
