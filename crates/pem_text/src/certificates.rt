//! The certificates of authorities.
ghost use Rattle.std.specs.Prelude.{◌≡◌, ◌++◌, ◌≤◌, IfOk, OnOk, string_bytes};
ghost use Rattle.pem_text.specs.Pem.{authority_pem, break_before, certificate_pem};
ghost use Rattle.pem_text.specs.Pem.{certificates_pem, last_break, next_column, wrapped};
ghost use Rattle.pem_text.specs.Pem.{wrapped_from};

use jwk_set::{Authority, Certificate};
use std::alloc::{AllocError, Global};

/// How many symbols of base64 a line has (RFC 7468, section 2).
const LINE_SYMBOLS: usize = 64;

/// Adds the certificate of each X.509 authority in its order, each as a text of PEM: a line that
/// begins it, its base64 in lines of 64 symbols and a last one of those that are left, and a line
/// that ends it (RFC 7468, section 5.1). Authorities for JWT-SVIDs have no certificate.
///
/// # Errors
/// Memory ran out. Nothing is said then of what is there.
pub fn push_certificates(
    alloc: Global,
    out: &mut Vec<u8>,
    authorities: &[Authority],
) -> Result<(), AllocError>
    ensures { OnOk result (out.new.items ≡ out.old.items ++ certificates_pem authorities.now) }
{
    for authority in authorities {
        push_authority(alloc, out, authority)?;
    }
    Ok(())
}

fn push_authority(alloc: Global, out: &mut Vec<u8>, authority: &Authority) -> Result<(), AllocError>
    ensures { OnOk result (out.new.items ≡ out.old.items ++ authority_pem authority.now) }
{
    match authority {
        Authority::X509 { der, .. } => push_certificate(alloc, out, der),
        Authority::Jwt { .. } => Ok(()),
    }
}

fn push_certificate(alloc: Global, out: &mut Vec<u8>, der: &Certificate) -> Result<(), AllocError>
    ensures { OnOk result (out.new.items ≡ out.old.items ++ certificate_pem der.now) }
{
    let text = der.encode(alloc)?;
    out.extend_from_slice(b"-----BEGIN CERTIFICATE-----\n")?;
    push_wrapped(out, text.as_str())?;
    out.extend_from_slice(b"-----END CERTIFICATE-----\n")?;
    Ok(())
}

fn push_wrapped(out: &mut Vec<u8>, text: &str) -> Result<(), AllocError>
    ensures { OnOk result (out.new.items ≡ out.old.items ++ wrapped text.now) }
{
    let mut column = 0;
    for symbol in text.as_bytes() {
        push_symbol(out, column, *symbol)?;
        column = next_column(column);
    }
    push_last_break(out, column)
}

// A line that is full is ended before the next symbol.
fn push_symbol(out: &mut Vec<u8>, column: usize, symbol: u8) -> Result<(), AllocError>
    ensures { OnOk result (out.new.items ≡ out.old.items ++ break_before column symbol) }
{
    if column == LINE_SYMBOLS {
        out.push(b'\n')?;
    }
    out.push(symbol)?;
    Ok(())
}

fn next_column(column: usize) -> usize
    requires { column ≤ 64 }
    ensures next { result ≡ next_column column }
    ensures within { result ≤ 64 }
{
    if column == LINE_SYMBOLS {
        1
    } else {
        column + 1
    }
}

fn push_last_break(out: &mut Vec<u8>, column: usize) -> Result<(), AllocError>
    ensures { OnOk result (out.new.items ≡ out.old.items ++ last_break column) }
{
    if column > 0 {
        out.push(b'\n')?;
    }
    Ok(())
}
