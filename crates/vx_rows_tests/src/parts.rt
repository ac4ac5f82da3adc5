//! Parts, columns that grow, and statistics, with ample memory.
use std::alloc::Global;
use std::test::Fail;
use vx_data::{DType, Scalar, Stat, StatsSet};
use vx_rows::{Column, GrowingColumn, Mask, RunningStats, push_rows, read_rows};

// The type of a text.
fn typed(alloc: Global, text: &str) -> Result<DType, Fail> {
    match DType::from_text(alloc, text) {
        Ok(dtype) => Ok(dtype),
        Err(_) => Err(Fail::from("no type")),
    }
}

// The rows of a text.
fn rows_of(alloc: Global, dtype: &DType, text: &str) -> Result<Column, Fail> {
    match read_rows(alloc, dtype, text) {
        Ok(column) => Ok(column),
        Err(_) => Err(Fail::from("no rows")),
    }
}

fn rows(alloc: Global, dtype: &str, text: &str) -> Result<Column, Fail> {
    let dtype = typed(alloc, dtype)?;
    rows_of(alloc, &dtype, text)
}

// The rows of a column, one line each.
fn printed(alloc: Global, column: &Column) -> Result<String, Fail> {
    let mut text = String::new(alloc);
    push_rows(alloc, &mut text, column)?;
    Ok(text)
}

// Whether a column has these rows.
fn prints(alloc: Global, column: &Column, wanted: &str) -> Result<bool, Fail> {
    let text = printed(alloc, column)?;
    Ok(text.as_str() == wanted)
}

// Rows 1 and 2 of a text.
fn part_of(alloc: Global, dtype: &str, text: &str) -> Result<Column, Fail> {
    let column = rows(alloc, dtype, text)?;
    Ok(column.part(alloc, 1, 3)?)
}

// Whether rows 1 and 2 of a text are these, and take so many bytes.
fn has_part(alloc: Global, dtype: &str, text: &str, wanted: &str, size: u64) -> Result<bool, Fail> {
    let part = part_of(alloc, dtype, text)?;
    if !part.is_even() || part.plain_size() != size {
        return Ok(false);
    }
    prints(alloc, &part, wanted)
}

#[test]
fn parts_are_cut(rt: HostRuntime) -> Result<(), Fail> {
    let alloc = rt.alloc();
    assert!(rt; has_part(alloc, "bool", "true\nfalse\ntrue\n", "false\ntrue\n", 1)?);
    assert!(rt; has_part(alloc, "i16?", "1\n~\n-2\n4\n", "~\n-2\n", 5)?);
    assert!(rt; has_part(alloc, "text?", "ab\n%\nabc\n~\n", "%\nabc\n", 12)?);
    assert!(rt;
        has_part(
            alloc,
            "{a:u8,b:text}?",
            "(1,x)\n~\n(2,yz)\n",
            "~\n(2,yz)\n",
            13
        )?
    );
    assert!(rt; has_part(alloc, "u64", "7\n8\n", "8\n", 8)?);
    Ok(())
}

// Which structs of a column are not null.
fn mask_of(alloc: Global, column: &Column) -> Result<Mask, Fail> {
    match column {
        Column::Struct(structs, _) => Ok(structs.mask(alloc)?),
        _ => Err(Fail::from("no struct")),
    }
}

// The same as truth values.
fn presence_of(alloc: Global, column: &Column) -> Result<Column, Fail> {
    match column {
        Column::Struct(_, _) => Ok(column.presence(alloc)?),
        _ => Err(Fail::from("no struct")),
    }
}

#[test]
fn structs_tell_which_are_there(rt: HostRuntime) -> Result<(), Fail> {
    let alloc = rt.alloc();
    let column = rows(alloc, "{a:u8}?", "(1)\n~\n")?;
    let mask = mask_of(alloc, &column)?;
    assert!(rt; mask.len() == 2 && mask.get(0) && !mask.get(1));
    let present = presence_of(alloc, &column)?;
    assert!(rt; prints(alloc, &present, "true\nfalse\n")?);
    Ok(())
}

// Whether a column has the type of a text.
fn is_of(alloc: Global, column: &Column, dtype: &str) -> Result<bool, Fail> {
    let dtype = typed(alloc, dtype)?;
    Ok(column.dtype_is(&dtype))
}

// Whether a column of an integer and a text that may be null has this type.
fn is_pair(alloc: Global, dtype: &str) -> Result<bool, Fail> {
    let column = rows(alloc, "{a:u8,b:text?}", "(1,x)\n")?;
    is_of(alloc, &column, dtype)
}

#[test]
fn types_are_compared(rt: HostRuntime) -> Result<(), Fail> {
    let alloc = rt.alloc();
    assert!(rt; is_pair(alloc, "{a:u8,b:text?}")?);
    for other in [
        "{a:u8,b:text}",
        "{a:u8,c:text?}",
        "{a:i8,b:text?}",
        "{a:u8}",
    ] {
        assert!(rt; !is_pair(alloc, other)?);
    }
    Ok(())
}

// The rows 1 and 2 of a column behind rows 0 to 2.
fn grown(alloc: Global, dtype: &DType, column: &Column) -> Result<GrowingColumn, Fail> {
    if column.len() < 3 {
        return Err(Fail::from("too few rows"));
    }
    if !column.is_even() {
        return Err(Fail::from("not even"));
    }
    if !column.dtype_is(dtype) {
        return Err(Fail::from("of another type"));
    }
    let mut growing = GrowingColumn::new(alloc, dtype)?;
    growing.append(alloc, column, 0, 3)?;
    growing.append(alloc, column, 1, 3)?;
    Ok(growing)
}

// The same of a text.
fn made(alloc: Global, dtype: &str, text: &str) -> Result<GrowingColumn, Fail> {
    let dtype = typed(alloc, dtype)?;
    let column = rows_of(alloc, &dtype, text)?;
    grown(alloc, &dtype, &column)
}

// Whether a column that grows has these rows.
fn holds(alloc: Global, growing: &GrowingColumn, wanted: &str) -> Result<bool, Fail> {
    let column = growing.column(alloc)?;
    prints(alloc, &column, wanted)
}

fn becomes(alloc: Global, growing: GrowingColumn, wanted: &str) -> Result<bool, Fail> {
    let column = growing.finish(alloc)?;
    prints(alloc, &column, wanted)
}

// Whether a column of five rows takes so many bytes, and its last two so many.
fn has_sizes(growing: &GrowingColumn, sizes: (u64, u64)) -> bool {
    growing.len() == 5 && growing.plain_size() == sizes.0 && growing.plain_size_from(3) == sizes.1
}

// Whether rows 1 and 2 of a text behind rows 0 to 2 are these, and how many bytes all and the last two of them take.
fn grows(
    alloc: Global,
    dtype: &str,
    text: &str,
    wanted: &str,
    sizes: (u64, u64),
) -> Result<bool, Fail> {
    let growing = made(alloc, dtype, text)?;
    if !has_sizes(&growing, sizes) {
        return Ok(false);
    }
    if !holds(alloc, &growing, wanted)? {
        return Ok(false);
    }
    becomes(alloc, growing, wanted)
}

#[test]
fn columns_grow(rt: HostRuntime) -> Result<(), Fail> {
    let alloc = rt.alloc();
    assert!(rt;
        grows(
            alloc,
            "bool?",
            "true\n~\nfalse\n",
            "true\n~\nfalse\n~\nfalse\n",
            (2, 2)
        )?
    );
    assert!(rt; grows(alloc, "i32", "1\n-2\n3\n", "1\n-2\n3\n-2\n3\n", (20, 8))?);
    assert!(rt; grows(alloc, "text?", "a\n~\nbc\n", "a\n~\nbc\n~\nbc\n", (26, 11))?);
    let twice = "(1,x)\n~\n(2,yz)\n~\n(2,yz)\n";
    assert!(rt;
        grows(
            alloc,
            "{a:u8,b:text}?",
            "(1,x)\n~\n(2,yz)\n",
            twice,
            (31, 13)
        )?
    );
    Ok(())
}

// The statistics of a column, some of whose rows are not present.
fn stats_of(alloc: Global, column: &Column, present: &Mask) -> Result<StatsSet, Fail> {
    if column.len() != present.len() {
        return Err(Fail::from("not as long"));
    }
    let mut stats = RunningStats::new(alloc, &[Stat::Min, Stat::Max, Stat::NullCount])?;
    stats.add(alloc, column, present)?;
    Ok(stats.finish())
}

// Whether a statistic has this text.
fn is_value(alloc: Global, set: &StatsSet, stat: Stat, wanted: &str) -> Result<bool, Fail> {
    match set.get(stat) {
        Some((scalar, _)) => has_text(alloc, scalar, wanted),
        None => Ok(wanted.is_empty()),
    }
}

fn has_text(alloc: Global, scalar: &Scalar, wanted: &str) -> Result<bool, Fail> {
    let text = scalar.to_text(alloc)?;
    Ok(text.as_str() == wanted)
}

// The statistics of three rows, of which the second is not present.
fn told(alloc: Global, dtype: &str, text: &str) -> Result<StatsSet, Fail> {
    let column = rows(alloc, dtype, text)?;
    let present = Mask::new(vec![in alloc; true, false, true]?);
    stats_of(alloc, &column, &present)
}

// Whether these are their minimum, maximum and null count.
fn tells(alloc: Global, dtype: &str, text: &str, wanted: (&str, &str, &str)) -> Result<bool, Fail> {
    let set = told(alloc, dtype, text)?;
    Ok(
        is_value(alloc, &set, Stat::Min, wanted.0)?
            && is_value(alloc, &set, Stat::Max, wanted.1)?
            && is_value(alloc, &set, Stat::NullCount, wanted.2)?,
    )
}

#[test]
fn statistics_are_of_present_rows(rt: HostRuntime) -> Result<(), Fail> {
    let alloc = rt.alloc();
    let long = "zzzzzzzzzzzzzzzzzzzzzzzzzzzzzzzzzzzzzzzzzzzzzzzzzzzzzzzzzzzzzzzzz\nz\ny\n";
    assert!(rt; tells(alloc, "i8?", "3\n-9\n-1\n", ("-1", "3", "1"))?);
    assert!(rt; tells(alloc, "bool", "true\nfalse\ntrue\n", ("true", "true", "1"))?);
    assert!(rt; tells(alloc, "text", long, ("y", "", "1"))?);
    assert!(rt; tells(alloc, "u8?", "~\n1\n~\n", ("", "", "3"))?);
    assert!(rt; tells(alloc, "{a:u8}?", "(1)\n~\n~\n", ("", "", "2"))?);
    Ok(())
}
