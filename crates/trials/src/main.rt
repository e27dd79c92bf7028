// Runs what is too long for a line of text: the paper's trial 10, which overflows, and trial 11, on byte buffers; refusal 7 at each place; the row
// reader; and the range scan, which tells more than the four numbers do. Writes a line for each, which says what was answered, and whether the outputs
// were kept.
#![tactic(auto)]

ghost use Rattle.std.specs.Prelude.{◌≤◌};

use checks::columns::check_columns;
use entries::take::take;
use range::bounds::{Scanned, check_bounds};
use reader::row::{has_row, read_row};
use std::io;
use tables::answer::Answer;
use tables::column::{Column, IndexColumn, Output};
use tables::table::{Indices, Table};

// What outputs are filled with.
const FILL: u8 = 0xEE;

// The paper's table A, `ab`, null, empty, `xyz`.
fn column_a() -> Column<'static> {
    Column {
        table: Table {
            kind: 3,
            offset_width: 4,
            rows: 4,
            ..Table::default()
        },
        data: b"abxyz",
        offsets: b"\0\0\0\0\x02\0\0\0\x02\0\0\0\x02\0\0\0\x05\0\0\0",
        validity: b"\x0d",
    }
}

fn index_column<'a>(width: u64, count: u64, data: &'a [u8], validity: &'a [u8]) -> IndexColumn<'a> {
    IndexColumn {
        indices: Indices {
            width,
            count,
            validity_bit: 0,
        },
        data,
        validity,
    }
}

// A name for one chain, which three outputs are asked by.
fn is_kept(out: &[u8]) -> bool {
    out.iter().all(|byte| *byte == FILL)
}

// Gathers into outputs as they are lent, and says what was answered, and whether all outputs are as they were lent.
fn gather(
    rt: &impl Print,
    what: &str,
    column: &Column<'_>,
    indices: &IndexColumn<'_>,
    out: Output<'_>,
) -> io::Result<()> {
    let Output {
        validity,
        offsets,
        data,
    } = out;
    let lent = Output {
        validity: &mut *validity,
        offsets: &mut *offsets,
        data: &mut *data,
    };
    let Answer {
        number,
        place,
        total,
        nulls,
    } = Answer::from(take(column, indices, lent));
    let kept = is_kept(validity) && is_kept(offsets) && is_kept(data);
    let outputs = if kept { "kept" } else { "written" };
    println!(rt;
        "{what}: number {number}, place {place}, total {total}, nulls {nulls}; outputs {outputs}"
    )
}

// Trial 10: one row of 65,536 bytes, `count` times index 0, where only the data output is too short. `kind` is a number, as in `Table`.
fn long_row(rt: &impl Print, what: &str, kind: u64, count: u64) -> io::Result<()> {
    let column = Column {
        table: Table {
            kind,
            width: 1,
            offset_width: 4,
            rows: 1,
            ..Table::default()
        },
        data: &[7; 65536],
        offsets: b"\0\0\0\0\0\0\x01\0",
        validity: b"",
    };
    let out = Output {
        validity: &mut [FILL; 4096],
        offsets: &mut [FILL; 131076],
        data: &mut [FILL; 64],
    };
    gather(
        rt,
        what,
        &column,
        &index_column(1, count, &[0; 32768], b""),
        out,
    )
}

// Trial 11: the row at place 1,048,575, of so many rows of a bit each; it is the only one that is set.
fn last_row(rt: &impl Print, what: &str, rows: u64) -> io::Result<()> {
    let mut bits = [0u8; 131073];
    bits[131071] = 128;
    let column = Column {
        table: Table {
            kind: 2,
            rows,
            ..Table::default()
        },
        data: &bits,
        offsets: b"",
        validity: b"",
    };
    let mut data = [FILL; 1];
    let out = Output {
        validity: &mut [FILL; 1],
        offsets: &mut [FILL; 1],
        data: &mut data,
    };
    gather(
        rt,
        what,
        &column,
        &index_column(4, 1, b"\xff\xff\x0f\0", b""),
        out,
    )?;
    let [byte] = data;
    println!(rt; "  its byte of data: {byte}")
}

// Trial 1, into outputs of so many bytes.
fn trial_1<const VALIDITY: usize, const OFFSETS: usize, const DATA: usize>(
    rt: &impl Print,
    what: &str,
) -> io::Result<()>
    requires { (VALIDITY ≤ 20) × (OFFSETS ≤ 20) × (DATA ≤ 20) }
{
    let indices = index_column(1, 4, b"\x03\x00\x09\x01", b"\x0b");
    let out = Output {
        validity: &mut [FILL; VALIDITY],
        offsets: &mut [FILL; OFFSETS],
        data: &mut [FILL; DATA],
    };
    gather(rt, what, &column_a(), &indices, out)
}

// Refusal 7 at each place: all outputs of trial 1 one byte short, then the last two, the last, and none.
fn space(rt: &impl Print) -> io::Result<()> {
    trial_1::<0, 19, 4>(rt, "trial 1, no validity output")?;
    trial_1::<1, 19, 4>(rt, "trial 1, 19 bytes of offsets")?;
    trial_1::<1, 20, 4>(rt, "trial 1, 4 bytes of data")?;
    trial_1::<1, 20, 5>(rt, "trial 1, just enough")
}

// A row of table A, by both entries of the row reader.
fn row(rt: &impl Print, number: u64) -> io::Result<()> {
    let column = column_a();
    let bytes = read_row(
        column.table,
        column.data,
        column.offsets,
        column.validity,
        number,
    )
    .escape_ascii();
    let found = if has_row(&column, number) {
        "found"
    } else {
        "not found"
    };
    println!(rt; "row {number}: \"{bytes}\", {found}")
}

// The range scan over so many rows, of an index column that is tested first.
fn scanned(rows: u64, indices: &IndexColumn<'_>) -> Scanned {
    let none = Column {
        table: Table {
            kind: 2,
            ..Table::default()
        },
        data: b"",
        offsets: b"",
        validity: b"",
    };
    match check_columns(&none, indices) {
        Ok(()) => check_bounds(rows, indices),
        refused => Scanned {
            checked: refused,
            looked: 0,
        },
    }
}

// What it answers, and how many indices it looked at.
fn scan(rt: &impl Print, rows: u64, indices: &IndexColumn<'_>) -> io::Result<()> {
    let Indices { width, count, .. } = indices.indices;
    let Scanned { checked, looked } = scanned(rows, indices);
    print!(rt; "scan, {count} indices of width {width}, {rows} rows: ")?;
    match checked {
        Ok(()) => print!(rt; "none outside")?,
        Err(refusal) => {
            let Answer { number, place, .. } = Answer::from(refusal);
            print!(rt; "number {number}, place {place}")?;
        }
    }
    println!(rt; ", looked at {looked}")
}

// The largest number that a width can hold, after another one and a null one, about the row counts that it can't hold. Then as the last index of 1,200,
// which are more than two blocks of the scan.
fn scans(rt: &impl Print) -> io::Result<()> {
    let bytes = index_column(1, 3, b"\x07\xff\xff", b"\x05");
    for rows in [255, 256, 257] {
        scan(rt, rows, &bytes)?;
    }
    let words = b"\x07\0\xff\xff\xff\xff";
    for rows in [65535, 65536, 65537] {
        scan(rt, rows, &index_column(2, 3, words, b"\x05"))?;
    }
    scan(rt, 65535, &index_column(2, 3, words, b"\x01"))?;
    scan(rt, 7, &bytes)?;
    scan(rt, 0, &index_column(1, 0, b"", b""))?;
    let mut data = [7u8; 1200];
    scan(rt, 255, &index_column(1, 1200, &data, b""))?;
    data[1199] = 255;
    for rows in [255, 256] {
        scan(rt, rows, &index_column(1, 1200, &data, b""))?;
    }
    data[512] = 255;
    scan(rt, 255, &index_column(1, 1200, &data, b""))
}

fn main(rt: HostRuntime) -> io::Result<()> {
    long_row(&rt, "trial 10, variable bytes", 3, 32768)?;
    long_row(&rt, "trial 10, list", 4, 32768)?;
    long_row(&rt, "trial 10, one index fewer", 3, 32767)?;
    last_row(&rt, "trial 11, 1048576 rows", 1048576)?;
    last_row(&rt, "trial 11, 1048577 rows", 1048577)?;
    space(&rt)?;
    for number in 0..5 {
        row(&rt, number)?;
    }
    scans(&rt)
}
