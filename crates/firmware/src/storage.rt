// The calls that keep a record and its deadlines over a power cut.
ghost use Rattle.std.specs.Prelude.{◌≡◌, length};
ghost use Rattle.image.specs.Image.{saved_over};
ghost use Rattle.firmware.specs.Storage.{saved_of, regained_of};

use deadlines::Table;
use record::Record;

// The image of record, table and serial, written to the buffer's front.
#[tactic(auto, unfolding(crate::specs::Storage::saved_of))]
pub fn tjernfaug_save(r: &Record, t: &Table, serial: u32, buffer: &mut [u8]) -> u32
    ensures { (result ≡ saved_of r.now (length buffer.old)) × (buffer.new ≡ saved_over serial r.now t.now buffer.old) }
{
    u32::from(record::number(image::save(r, t, serial, buffer)))
}

// What the octets' image holds; a refusal leaves all that is lent.
#[tactic(auto, unfolding(crate::specs::Storage::regained_of, crate::specs::Storage::regained_by, crate::specs::Storage::regained_number))]
pub fn tjernfaug_load(r: &mut Record, t: &mut Table, serial: &mut u32, octets: &[u8]) -> u32
    ensures { (result ≡ (regained_of r.old t.old serial.old octets.now).answer) × ((r.new ≡ (regained_of r.old t.old serial.old octets.now).next) × ((t.new ≡ (regained_of r.old t.old serial.old octets.now).table) × (serial.new ≡ (regained_of r.old t.old serial.old octets.now).serial))) }
{
    match image::load(octets) {
        Ok(found) => {
            *r = found.next;
            *t = found.table;
            *serial = found.serial;
            0
        }
        Err(refusal) => refusal.number(),
    }
}
