//! Worked rows of the array codec, with ample memory.
use std::alloc::Global;
use std::test::Fail;
use vx_base::{Alignment, ByteBuffer};
use vx_data::{DType, Fields, PType};
use vx_rows::{
    ArrayError, Column, EncodeError, Mask, RowsError, decode_array, encode_array, push_rows,
    read_rows, row_text,
};

// The ids of a file, in order.
fn ids(alloc: Global) -> Result<Vec<String>, Fail> {
    let mut ids = Vec::new(alloc);
    ids.push(String::from_str(alloc, "vortex.bool")?)?;
    ids.push(String::from_str(alloc, "vortex.primitive")?)?;
    ids.push(String::from_str(alloc, "vortex.other")?)?;
    ids.push(String::from_str(alloc, "vortex.varbin")?)?;
    ids.push(String::from_str(alloc, "vortex.struct")?)?;
    Ok(ids)
}

// The column of these bytes, or its fault.
fn decoded(
    alloc: Global,
    bytes: &[u8],
    dtype: &DType,
    rows: u64,
) -> Result<Result<Column, ArrayError>, Fail> {
    let held = ByteBuffer::from_vec(alloc, Vec::from_slice(alloc, bytes)?, Alignment::none())?;
    let ids = ids(alloc)?;
    Ok(decode_array(alloc, &held, dtype, rows, &ids))
}

// The fault of these bytes, if there is one.
fn fault(
    alloc: Global,
    bytes: &[u8],
    dtype: &DType,
    rows: u64,
) -> Result<Option<ArrayError>, Fail> {
    match decoded(alloc, bytes, dtype, rows)? {
        Ok(_) => Ok(None),
        Err(error) => Ok(Some(error)),
    }
}

#[test]
fn faults_come_in_reading_order(rt: HostRuntime) -> Result<(), Fail> {
    let alloc = rt.alloc();
    let flags = DType::Bool(false);
    let small = DType::Int(PType::U8, true);
    let words = DType::Text(false);
    let bad = Some(ArrayError::BadArray);
    assert!(rt; fault(alloc, b"\x00\x00\x05", &flags, 3)?.is_none());
    assert!(rt; fault(alloc, b"\x00\x00\x0d", &flags, 3)? == bad);
    assert!(rt; fault(alloc, b"\x01\x00\x01\x01\x05\x00", &small, 2)?.is_none());
    assert!(rt; fault(alloc, b"\x01\x00\x01\x01\x05\x00\x00\x00", &small, 2)? == bad);
    assert!(rt; fault(alloc, b"\x01\x00\x01\x03\x05\x00", &small, 2)? == bad);
    assert!(rt; fault(alloc, b"\x01\x00\x01\x01\x05\x01", &small, 2)? == bad);
    assert!(rt; fault(alloc, b"\x02\x00\x01", &small, 2)? == Some(ArrayError::UnknownEncoding));
    assert!(rt; fault(alloc, b"\x05\x00\x00", &small, 0)? == bad);
    assert!(rt; fault(alloc, b"\x03\x00\x01\x00\x00\x00\xff", &words, 1)? == bad);
    Ok(())
}

// The texts of a struct's first field: of two rows, with a dot between.
fn first_texts(alloc: Global, column: &Column) -> Result<String, Fail> {
    let mut text = String::new(alloc);
    let Some(field) = column.fields().first() else {
        return Ok(text);
    };
    let Column::Text(texts) = &field.1 else {
        return Ok(text);
    };
    for row in 0..texts.len() {
        if texts.is_present(row) {
            text.push_str(texts.text_at(row))?;
        }
        text.push_str(".")?;
    }
    Ok(text)
}

#[test]
fn values_are_read(rt: HostRuntime) -> Result<(), Fail> {
    let alloc = rt.alloc();
    let mut fields = Vec::new(alloc);
    fields.push((String::from_str(alloc, "a")?, DType::Text(true)))?;
    let pairs = DType::Struct(Fields::new(fields), false);
    let bytes = b"\x04\x00\x03\x00\x01\x02\x00\x00\x00\x00\x02\x00\x00\x00hi";
    let column = match decoded(alloc, bytes, &pairs, 2)? {
        Ok(column) => column,
        Err(_) => return Err(Fail::from("refused")),
    };
    assert!(rt; column.len() == 2);
    assert!(rt; first_texts(alloc, &column)?.as_str() == ".hi.");
    Ok(())
}

#[test]
fn a_mask_keeps_its_bits(rt: HostRuntime) -> Result<(), Fail> {
    let mask = Mask::new(vec![in rt.alloc(); true, false]?);
    assert!(rt; mask.len() == 2 && mask.get(0) && !mask.get(1));
    let long = Mask::new(vec![in rt.alloc(); true; 130]?);
    assert!(rt; long.skip(1, true) == 129 && long.skip(1, false) == 1);
    Ok(())
}

// The bytes of a column, in the order of the ids above.
fn encoded(alloc: Global, column: &Column) -> Result<ByteBuffer, Fail> {
    let ids = ids(alloc)?;
    if ids.len() > 65536 {
        return Err(Fail::from("too many ids"));
    }
    match encode_array(alloc, column, &ids) {
        Ok(bytes) => Ok(bytes),
        Err(_) => Err(Fail::from("refused")),
    }
}

// -2, null and 258.
fn numbers(alloc: Global) -> Result<Column, Fail> {
    let values = vec![in alloc; Some(-2), None, Some(258)]?;
    Ok(Column::ints(alloc, PType::I16, &values, true)?)
}

// `a b` and the empty text.
fn words(alloc: Global) -> Result<Column, Fail> {
    let mut values = Vec::new(alloc);
    values.push(Some(String::from_str(alloc, "a b")?))?;
    values.push(Some(String::new(alloc)))?;
    Ok(Column::texts(alloc, &values, false)?)
}

// The rows of a column, one line each.
fn printed(alloc: Global, column: &Column) -> Result<String, Fail> {
    let mut text = String::new(alloc);
    push_rows(alloc, &mut text, column)?;
    Ok(text)
}

#[test]
fn integers_are_written(rt: HostRuntime) -> Result<(), Fail> {
    let alloc = rt.alloc();
    let bytes = encoded(alloc, &numbers(alloc)?)?;
    let wanted = b"\x01\x00\x01\x05\xfe\xff\x00\x00\x02\x01";
    assert!(rt; bytes.as_slice() == wanted.as_slice());
    Ok(())
}

#[test]
fn texts_are_written(rt: HostRuntime) -> Result<(), Fail> {
    let alloc = rt.alloc();
    let bytes = encoded(alloc, &words(alloc)?)?;
    let wanted = b"\x03\x00\x03\x00\x00\x00\x00\x00\x00\x00a b";
    assert!(rt; bytes.as_slice() == wanted.as_slice());
    Ok(())
}

#[test]
fn an_id_that_is_missing_is_not_permitted(rt: HostRuntime) -> Result<(), Fail> {
    let alloc = rt.alloc();
    let column = numbers(alloc)?;
    let mut ids = Vec::new(alloc);
    ids.push(String::from_str(alloc, "vortex.bool")?)?;
    match encode_array(alloc, &column, &ids) {
        Err(EncodeError::NotPermitted) => Ok(()),
        _ => Err(Fail::from("permitted")),
    }
}

#[test]
fn integers_are_printed(rt: HostRuntime) -> Result<(), Fail> {
    let alloc = rt.alloc();
    let text = printed(alloc, &numbers(alloc)?)?;
    assert!(rt; text.as_str() == "-2\n~\n258\n");
    Ok(())
}

#[test]
fn texts_are_printed(rt: HostRuntime) -> Result<(), Fail> {
    let alloc = rt.alloc();
    let text = printed(alloc, &words(alloc)?)?;
    assert!(rt; text.as_str() == "a%20b\n%\n");
    Ok(())
}

#[test]
fn a_struct_is_printed(rt: HostRuntime) -> Result<(), Fail> {
    let alloc = rt.alloc();
    let mut fields = Vec::new(alloc);
    fields.push((String::from_str(alloc, "a")?, DType::Text(true)))?;
    let pairs = DType::Struct(Fields::new(fields), false);
    let bytes = b"\x04\x00\x03\x00\x01\x02\x00\x00\x00\x00\x02\x00\x00\x00hi";
    let column = match decoded(alloc, bytes, &pairs, 2)? {
        Ok(column) => column,
        Err(_) => return Err(Fail::from("refused")),
    };
    if column.len() < 2 {
        return Err(Fail::from("no rows"));
    }
    assert!(rt; row_text(alloc, &column, 0)?.as_str() == "(~)");
    assert!(rt; row_text(alloc, &column, 1)?.as_str() == "(hi)");
    Ok(())
}

// The rows of a text printed again, or which line is bad.
fn reread(alloc: Global, dtype: &str, text: &str) -> Result<Result<String, u64>, Fail> {
    let Ok(dtype) = DType::from_text(alloc, dtype) else {
        return Err(Fail::from("no type"));
    };
    match read_rows(alloc, &dtype, text) {
        Ok(column) => Ok(Ok(printed(alloc, &column)?)),
        Err(RowsError::BadLine(line)) => Ok(Err(line)),
        Err(RowsError::OutOfMemory) => Err(Fail::from("no memory")),
    }
}

// Whether a text is read as the rows that it prints.
fn comes_back(alloc: Global, dtype: &str, text: &str) -> Result<bool, Fail> {
    match reread(alloc, dtype, text)? {
        Ok(rows) => Ok(rows.as_str() == text),
        Err(_) => Ok(false),
    }
}

// Whether a text is refused for its line of this number.
fn is_bad(alloc: Global, dtype: &str, text: &str, line: u64) -> Result<bool, Fail> {
    match reread(alloc, dtype, text)? {
        Ok(_) => Ok(false),
        Err(bad) => Ok(bad == line),
    }
}

#[test]
fn rows_come_back(rt: HostRuntime) -> Result<(), Fail> {
    let alloc = rt.alloc();
    assert!(rt; comes_back(alloc, "bool?", "true\n~\nfalse\n")?);
    assert!(rt; comes_back(alloc, "u8", "")?);
    assert!(rt; comes_back(alloc, "i8?", "-128\n127\n0\n~\n")?);
    assert!(rt; comes_back(alloc, "u64", "18446744073709551615\n10\n")?);
    assert!(rt; comes_back(alloc, "i64", "-9223372036854775808\n")?);
    assert!(rt; comes_back(alloc, "text?", "a.b\n%\n~\n%20x%C3%A9\n")?);
    assert!(rt; comes_back(alloc, "{}", "()\n()\n")?);
    assert!(rt;
        comes_back(
            alloc,
            "{a:u8,b:{c:text?}?}?",
            "(1,(x))\n~\n(2,~)\n(3,(~))\n"
        )?
    );
    Ok(())
}

#[test]
fn the_first_bad_line_is_told(rt: HostRuntime) -> Result<(), Fail> {
    let alloc = rt.alloc();
    assert!(rt; is_bad(alloc, "bool", "true\n~\nno\n", 1)?);
    assert!(rt; is_bad(alloc, "bool", "\n", 0)?);
    assert!(rt; is_bad(alloc, "u8", "0\n255\n256\n", 2)?);
    assert!(rt; is_bad(alloc, "u8", "1\n01\n", 1)?);
    assert!(rt; is_bad(alloc, "i8", "-1\n-0\n", 1)?);
    assert!(rt; is_bad(alloc, "i8", "-129\n", 0)?);
    assert!(rt; is_bad(alloc, "u64", "18446744073709551616\n", 0)?);
    assert!(rt; is_bad(alloc, "u8", "1 \n", 0)?);
    assert!(rt; is_bad(alloc, "text", "a\n%41\n", 1)?);
    assert!(rt; is_bad(alloc, "text", "%FF\n", 0)?);
    assert!(rt; is_bad(alloc, "{a:u8,b:u8}", "(1,2)\n(1 2)\n", 1)?);
    assert!(rt; is_bad(alloc, "{a:u8}", "~\n", 0)?);
    Ok(())
}

#[test]
fn the_last_line_feed_may_lack(rt: HostRuntime) -> Result<(), Fail> {
    let alloc = rt.alloc();
    match reread(alloc, "u8", "1\n2")? {
        Ok(rows) => assert!(rt; rows.as_str() == "1\n2\n"),
        Err(_) => return Err(Fail::from("refused")),
    }
    Ok(())
}
