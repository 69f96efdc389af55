// The image of a record and its table, into a lent buffer.
ghost use Rattle.std.specs.Prelude.{◌≡◌, ◌≤◌, length};
ghost use Rattle.laws.specs.Splice.{Put};
ghost use Rattle.laws.specs.Upto.{over};
ghost use Rattle.image.specs.Numbers.{column_octets};
ghost use Rattle.image.specs.Layout.{head_columns};
ghost use Rattle.image.specs.Image.{body_of, image_of, save_answer, saved_over};

use crate::checksum::checksum;
use crate::columns::{Number, lay_column};
use crate::laying::{lay_record, lay_table};
use deadlines::Table;
use record::{Answer, Record};

// The mark, the layout's version and length, and the serial.
fn lay_head(buffer: &mut [u8], serial: u32) -> usize
    requires { 12 ≤ length buffer.old }
    ensures laid { Put buffer.old 0 (column_octets (head_columns serial)) buffer.new result }
    ensures next { result ≡ 12 }
{
    let a = lay_column(buffer, 0, &[0x54u8, 0x4A, 0x52, 0x46]);
    let b = lay_column(buffer, a, &[1u16, 1392]);
    serial.lay(buffer, b)
}

fn lay_body(buffer: &mut [u8], r: &Record, t: &Table, serial: u32) -> usize
    requires { 1388 ≤ length buffer.old }
    ensures laid { Put buffer.old 0 (body_of serial r.now t.now) buffer.new result }
    ensures next { result ≡ 1388 }
{
    let a = lay_head(buffer, serial);
    let b = lay_record(buffer, a, r);
    lay_table(buffer, b, t)
}

fn lay_image(buffer: &mut [u8], r: &Record, t: &Table, serial: u32)
    requires { 1392 ≤ length buffer.old }
    ensures { buffer.new ≡ over (image_of serial r.now t.now) buffer.old }
{
    let at = lay_body(buffer, r, t, serial);
    let sum = checksum(&buffer[..at]);
    sum.lay(buffer, at);
}

// Any record, any table, any serial and any buffer.
pub fn save(r: &Record, t: &Table, serial: u32, buffer: &mut [u8]) -> Answer
    ensures { (result ≡ save_answer r.now (length buffer.old)) × (buffer.new ≡ saved_over serial r.now t.now buffer.old) }
{
    if !ranges::fits(r) {
        return Answer::Range;
    }
    if buffer.len() < 1392 {
        return Answer::Short;
    }
    lay_image(buffer, r, t, serial);
    Answer::Taken
}
