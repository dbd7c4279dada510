//! Binary data as base64 texts (RFC 4648, section 4).
ghost use Rattle.std.specs.Prelude.{◌≡◌, Ok, IfOk, IfErr, string_bytes};
ghost use Rattle.base64.specs.Engines.{standard};
ghost use Rattle.base64.specs.GeneralPurpose.{encode_of, decode_of, IsBytes, IsDecodeFailure};
ghost use Rattle.ejson_codec.specs.Base64.{base64, bytes_of};

use base64::DecodeAllocError;
use base64::engine::general_purpose::STANDARD;
use ejson_value::{Bytes, Mem};
use std::alloc::Global;

// The base64 text of these bytes.
pub(crate) fn encoded(alloc: Global, bytes: &[u8]) -> Result<String, Mem>
    ensures { IfOk result (λ text. string_bytes text ≡ base64 bytes.now) }
{
    Ok(STANDARD.encode(alloc, bytes)?)
}

// The bytes that have this base64 text, if there are any.
pub(crate) fn decoded(alloc: Global, text: &str) -> Result<Option<Bytes>, Mem>
    ensures { IfOk result (λ found. found ≡ bytes_of text.now) }
{
    match decode(alloc, text) {
        Ok(bytes) => Ok(Some(Bytes::from_vec(bytes))),
        Err(DecodeAllocError::OutOfMemory) => Err(Mem),
        Err(DecodeAllocError::DecodeError(_)) => Ok(None),
    }
}

// The bytes of a canonical base64 text.
fn decode(alloc: Global, text: &str) -> Result<Vec<u8>, DecodeAllocError>
    ensures decoded { IfOk result (λ bytes. decode_of standard text.now ≡ Ok bytes.items) }
    ensures encoded { IfOk result (λ bytes. text.now ≡ encode_of standard bytes.items) }
    ensures bytes { IfOk result (λ bytes. IsBytes bytes.items) }
    ensures refused { IfErr result (λ e. IsDecodeFailure standard text.now e) }
{
    STANDARD.decode(alloc, text.as_bytes())
}
