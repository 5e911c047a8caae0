//! Requests on hexadecimal encoding, quoted strings and escapes.
use jj_content::hex_util::{
    common_hex_len, decode_hex, decode_hex_prefix, decode_reverse_hex, decode_reverse_hex_prefix,
    encode_hex, encode_reverse_hex,
};
use jj_content::symbol_util::{escape_string, format_string, unescape_char, write_quoted};
use rows::request::Request;
use rows::row_error::{RowError, agree};
use rows::values::Values;
use std::alloc::Global;

fn put_bytes(values: &mut Values, bytes: Option<Vec<u8>>) {
    values.option_bytes(bytes.as_ref().map(|bytes: &Vec<u8>| bytes.as_slice()));
}

fn put_prefix(values: &mut Values, prefix: Option<(Vec<u8>, bool)>) {
    match prefix {
        None => values.word("none"),
        Some((bytes, is_odd)) => {
            values.word("some");
            values.bytes(bytes.as_slice());
            values.flag(is_odd);
        }
    }
}

fn decode(alloc: Global, request: &Request, values: &mut Values) -> Result<(), RowError> {
    put_bytes(values, decode_hex(alloc, request.group(0).only_bytes())?);
    Ok(())
}

fn decode_reverse(alloc: Global, request: &Request, values: &mut Values) -> Result<(), RowError> {
    let hex = request.group(0).only_bytes();
    put_bytes(values, decode_reverse_hex(alloc, hex)?);
    Ok(())
}

fn prefix(alloc: Global, request: &Request, values: &mut Values) -> Result<(), RowError> {
    let hex = request.group(0).only_bytes();
    put_prefix(values, decode_hex_prefix(alloc, hex)?);
    Ok(())
}

fn prefix_reverse(alloc: Global, request: &Request, values: &mut Values) -> Result<(), RowError> {
    let hex = request.group(0).only_bytes();
    put_prefix(values, decode_reverse_hex_prefix(alloc, hex)?);
    Ok(())
}

fn encode(alloc: Global, request: &Request, values: &mut Values) -> Result<(), RowError> {
    values.allocated(encode_hex(alloc, request.group(0).only_bytes()));
    Ok(())
}

fn encode_reverse(alloc: Global, request: &Request, values: &mut Values) -> Result<(), RowError> {
    values.allocated(encode_reverse_hex(alloc, request.group(0).only_bytes()));
    Ok(())
}

fn common_len(request: &Request, values: &mut Values) -> Result<(), RowError> {
    let fields = request.group(0);
    values.index(common_hex_len(fields.bytes(0), fields.bytes(1)));
    Ok(())
}

fn escape(alloc: Global, request: &Request, values: &mut Values) -> Result<(), RowError> {
    values.allocated(escape_string(alloc, request.group(0).only_string()));
    Ok(())
}

fn quote(alloc: Global, request: &Request, values: &mut Values) -> Result<(), RowError> {
    let string = request.group(0).only_string();
    let quoted = format_string(alloc, string)?;
    values.string(quoted.as_str());
    let mut written = String::new(alloc);
    if write_quoted(&mut written, string).is_err() {
        return Err(RowError::Memory);
    }
    agree(written == quoted, "a quoted string as it is written")
}

fn unescape(request: &Request, values: &mut Values) -> Result<(), RowError> {
    match unescape_char(request.group(0).only_string()) {
        None => values.word("none"),
        Some(c) => {
            values.word("some");
            values.display(&c);
        }
    }
    Ok(())
}

pub(crate) fn call(alloc: Global, name: &str, request: &Request, values: &mut Values) -> bool {
    let called = match name {
        "hex-decode" => decode(alloc, request, values),
        "hex-decode-rev" => decode_reverse(alloc, request, values),
        "hex-prefix" => prefix(alloc, request, values),
        "hex-prefix-rev" => prefix_reverse(alloc, request, values),
        "hex-encode" => encode(alloc, request, values),
        "hex-encode-rev" => encode_reverse(alloc, request, values),
        "common-hex-len" => common_len(request, values),
        "escape" => escape(alloc, request, values),
        "format" => quote(alloc, request, values),
        "unescape-char" => unescape(request, values),
        _ => return false,
    };
    values.record(called);
    true
}
