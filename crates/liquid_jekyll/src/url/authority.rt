//! Authorities of URLs in their normal form: an optional user, a host, and an optional port.
ghost use Rattle.std.specs.Prelude.{◌≡◌, ◌++◌, string_bytes, OnOk};
ghost use Rattle.std.specs.Char.{is_ascii_digit};
ghost use Rattle.std.specs.List.{list_all};
ghost use Rattle.liquid_jekyll.specs.meaning.url.Authority as Spec;

use crate::url::cuts::cut_last;
use std::alloc::{AllocError, Global};

/// Adds the authority in its normal form to a URL of this scheme: with its host in lower case, and without the port if that
/// is empty or the usual one of the scheme.
pub(crate) fn push_user_and_host(
    alloc: Global,
    url: &mut String,
    scheme: &str,
    authority: &str,
) -> Result<(), AllocError>
    ensures { OnOk result (string_bytes url.new ≡ string_bytes url.old ++ Spec.normal_authority scheme.now authority.now) }
{
    match cut_last(authority, "@") {
        Some((user, host)) => {
            url.push_str(user)?;
            url.push_str("@")?;
            push_host(alloc, url, scheme, host)
        }
        None => push_host(alloc, url, scheme, authority),
    }
}

/// Adds a host and its port.
fn push_host(alloc: Global, url: &mut String, scheme: &str, host: &str) -> Result<(), AllocError>
    ensures { OnOk result (string_bytes url.new ≡ string_bytes url.old ++ Spec.normal_host scheme.now host.now) }
{
    match cut_last(host, ":") {
        Some((name, port)) => if is_number(port.as_bytes()) {
            push_lowercase(alloc, url, name)?;
            push_port(url, scheme, port)
        } else {
            push_lowercase(alloc, url, host)
        },
        None => push_lowercase(alloc, url, host),
    }
}

fn push_lowercase(alloc: Global, url: &mut String, text: &str) -> Result<(), AllocError>
    ensures { OnOk result (string_bytes url.new ≡ string_bytes url.old ++ Spec.lowercase text.now) }
{
    let lower = text.to_ascii_lowercase(alloc)?;
    Ok(url.push_str(lower.as_str())?)
}

/// Adds a port, unless it is empty or the usual one.
fn push_port(url: &mut String, scheme: &str, port: &str) -> Result<(), AllocError>
    ensures { OnOk result (string_bytes url.new ≡ string_bytes url.old ++ Spec.port_text scheme.now port.now) }
{
    if port.is_empty() || port == usual_port(scheme) {
        return Ok(());
    }
    url.push_str(":")?;
    Ok(url.push_str(port)?)
}

/// Returns the port that a URL of the scheme has if it names none, or the empty string.
fn usual_port(scheme: &str) -> &'static str
    ensures { result.now ≡ Spec.usual_port scheme.now }
{
    match scheme {
        "http" => "80",
        "https" => "443",
        "ftp" => "21",
        _ => "",
    }
}

fn is_number(text: &[u8]) -> bool
    ensures { result ≡ list_all is_ascii_digit text.now }
{
    text.iter().all(|byte| byte.is_ascii_digit())
}
