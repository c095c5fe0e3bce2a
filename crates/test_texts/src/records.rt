//! Files of records, and what is said of each record.
use csv::ByteRecord;
use event_rows::{
    Parsed, RecordReader, RowRefusal, RowWriter, event_text, read_row, span_text, type_text,
};
use graph_model::Bounds;
use std::alloc::{AllocError, Global};
use std::test::Fail;

/// Each file with the bounds behind its first record, and for each of its records the row that is
/// written of what it says, or the cause of its refusal. A deletion, a second type, and a value of
/// another type are refused only by those who know what was read before.
#[test]
fn records_say_rows(rt: HostRuntime) -> Result<(), Fail> {
    for (hi, events, rows) in [
        (
            Bounds::LATEST,
            b"tree,1,a\nnode,1,\xff\nnode,4611686018427387904,a\nnode,1,\nnode,1,a,k:i=1,k:i=2\ndelete,1,a,b,l\nnode,1,a,k:i=1\nnode,2,a,k:s=x\nspan,0,9\nedge,1,a,b\n".as_slice(),
            "shape\ntext\ntime\nname\nproperty\ndelete,1,a,b,l\nnode,1,a,k:i=1\nnode,2,a,k:s=x\nshape\nshape\n",
        ),
        (
            10,
            b"span,0,10\nedge,10,a,b,l\nedge,9,a,b,l\n".as_slice(),
            "span,0,10\noutside\nedge,9,a,b,l\n",
        ),
        (
            Bounds::LATEST,
            b"edge,1@,a,b,l\nedge,@1,a,b,l\nedge,1@-1,a,b,l\nedge,1@4294967296,a,b,l\nedge,1@0,a,b,l\n".as_slice(),
            "time\ntime\ntime\ntime\nedge,1,a,b,l\n",
        ),
        (
            Bounds::LATEST,
            b"span,9,0\ndelete,5@2,a,b,l\ntype,b,shop\ntype,,shop\ntype,a\n".as_slice(),
            "time\ndelete,5@2,a,b,l\ntype,b,shop\nname\nshape\n",
        ),
        (
            Bounds::LATEST,
            b"\xef\xbb\xbfnode,1,\"x, \"\"y\"\"\",k:s=hi\r\nnode,0001,a,z:b=true,b:i=-007,b2:s=".as_slice(),
            "node,1,\"x, \"\"y\"\"\",k:s=hi\nnode,1,a,b:i=-7,b2:s=,z:b=true\n",
        ),
    ] {
        let bounds = Bounds::new(0, hi).ok_or("no bounds")?;
        let told = told(rt.alloc(), events, bounds)?;
        assert!(rt; told.as_slice() == rows.as_bytes(), "at {rows}");
    }
    Ok(())
}

/// The longest name and the most properties are read, and not one byte or one property more.
#[test]
fn longest_records(rt: HostRuntime) -> Result<(), Fail> {
    for (name, properties, word) in [
        (256, 256, "node"),
        (257, 0, "name"),
        (1, 257, "property"),
        (257, 257, "name"),
    ] {
        let record = record_of(rt.alloc(), name, properties)?;
        let told = told(rt.alloc(), record.as_bytes(), Bounds::whole())?;
        assert!(rt;
            told.as_slice().starts_with(word.as_bytes()),
            "at {name} bytes and {properties} properties"
        );
    }
    Ok(())
}

/// Rows of fields and rows of records stand one behind another.
#[test]
fn rows_make_a_text(rt: HostRuntime) -> Result<(), Fail> {
    let mut row = ByteRecord::new(rt.alloc());
    row.push_field(b"x, y")?;
    let mut writer = RowWriter::new(rt.alloc());
    writer.add_fields(&[b"graph", b"", b"3"])?;
    writer.add(&row)?;
    writer.add_fields(&[b""])?;
    let text = writer.into_text()?;
    assert!(rt; text.as_slice() == b"graph,,3\n\"x, y\"\n\"\"\n".as_slice());
    Ok(())
}

/// A node whose name has so many bytes, with so many properties.
fn record_of(alloc: Global, name: usize, properties: u16) -> Result<String, AllocError> {
    let mut record = String::from_str(alloc, "node,1,")?;
    for _ in 0..name {
        record.push('n')?;
    }
    for number in 0..properties {
        let property = format!(in alloc; ",k{number}:i={number}")?;
        record.push_str(property.as_str())?;
    }
    Ok(record)
}

/// What is said of each record of a file of at most 16 records.
fn told(alloc: Global, events: &[u8], bounds: Bounds) -> Result<Vec<u8>, AllocError> {
    let mut reader = RecordReader::new(alloc, events);
    let mut row = ByteRecord::new(alloc);
    let mut out = Vec::new(alloc);
    for number in 0..16u8 {
        if !reader.next(&mut row)? {
            return Ok(out);
        }
        let text = said(alloc, read_row(alloc, &row, bounds, number == 0))?;
        out.extend_from_slice(text.as_slice())?;
    }
    Ok(out)
}

fn said(alloc: Global, read: Result<Parsed, RowRefusal>) -> Result<Vec<u8>, AllocError> {
    match read {
        Ok(parsed) => printed(alloc, &parsed),
        Err(refusal) => Vec::from_slice(alloc, word(refusal)),
    }
}

fn printed(alloc: Global, parsed: &Parsed) -> Result<Vec<u8>, AllocError> {
    match parsed {
        Parsed::Span(bounds) => span_text(alloc, *bounds),
        Parsed::NodeType(node, kind) => type_text(alloc, node, kind),
        Parsed::Event(event) => event_text(alloc, event),
    }
}

fn word(refusal: RowRefusal) -> &'static [u8] {
    match refusal {
        RowRefusal::Shape => b"shape\n",
        RowRefusal::Text => b"text\n",
        RowRefusal::Time => b"time\n",
        RowRefusal::Outside => b"outside\n",
        RowRefusal::Name => b"name\n",
        RowRefusal::Property => b"property\n",
        RowRefusal::Memory => b"memory\n",
    }
}
