// Parses the input of `mapcalc`: finds what it asks for, or answers that it is bad.

ghost use Rattle.std.specs.Prelude.{◌≡◌};
ghost use Rattle.request.specs.Request.{asked_of, operation_of, requested, take_bytes, take_record};
ghost use Rattle.request.specs.Parse.{operation_in, request_in, taken};

// The input is bad.
#[derive(Clone, Copy)]
pub struct BadInput;

// What is asked for: the common part, the combination, the difference or the order.
#[derive(Clone, Copy)]
pub enum Operation {
    Generalize,
    Unify,
    Difference,
    Order,
}

// What the input asks for: the operation, the number of types, the table and the two records.
#[derive(Clone, Copy)]
pub struct Asked<'a> {
    pub operation: Operation,
    pub n: usize,
    pub table: &'a [u8],
    pub first: &'a [u8],
    pub second: &'a [u8],
}

impl TryFrom<u8> for Operation {
    type Error = BadInput;

    ghost try_from_gives = { λ byte r. operation_in r ≡ operation_of byte };

    fn try_from(byte: u8) -> Result<Operation, BadInput> {
        match byte {
            1 => Ok(Operation::Generalize),
            2 => Ok(Operation::Unify),
            3 => Ok(Operation::Difference),
            4 => Ok(Operation::Order),
            _ => Err(BadInput),
        }
    }
}

// The next `count` bytes, and those behind them.
fn take_bytes(count: usize, bytes: &[u8]) -> Result<(&[u8], &[u8]), BadInput>
    ensures { taken result ≡ take_bytes count bytes.now }
{
    bytes.split_at_checked(count).ok_or(BadInput)
}

// The next record, after its length of 2 bytes, and the bytes behind it.
fn take_record(bytes: &[u8]) -> Result<(&[u8], &[u8]), BadInput>
    ensures { taken result ≡ take_record bytes.now }
{
    let [low, high, rest @ ..] = bytes else {
        return Err(BadInput);
    };
    let length = *low as usize + 256 * *high as usize;
    if 8192 < length {
        return Err(BadInput);
    }
    take_bytes(length, rest)
}

// Parses what follows the operation byte.
fn parse_after(operation: Operation, bytes: &[u8]) -> Result<Asked<'_>, BadInput>
    ensures { request_in result ≡ asked_of operation bytes.now }
{
    let [n, rest @ ..] = bytes else {
        return Err(BadInput);
    };
    let n = *n as usize;
    let (table, records) = take_bytes(8 * n, rest)?;
    let (first, more) = take_record(records)?;
    let (second, left) = take_record(more)?;
    if left.len() != 0 {
        return Err(BadInput);
    }
    Ok(Asked {
        operation,
        n,
        table,
        first,
        second,
    })
}

// Parses the whole input.
pub fn parse(input: &[u8]) -> Result<Asked<'_>, BadInput>
    ensures { request_in result ≡ requested input.now }
{
    let [byte, rest @ ..] = input else {
        return Err(BadInput);
    };
    let operation = Operation::try_from(*byte)?;
    parse_after(operation, rest)
}
