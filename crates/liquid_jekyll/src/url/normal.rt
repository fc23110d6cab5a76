//! URLs in their normal form.
ghost use Rattle.std.specs.Prelude.{◌≡◌, ◌++◌, map, option_map, string_bytes, IfOk, OnOk};
ghost use Rattle.liquid_jekyll.specs.meaning.url.Normal as Spec;

use crate::url::authority::push_user_and_host;
use crate::url::parting::parts_of_url;
use crate::url::parts::{UrlPart, clean};
use crate::url::path::{clean_all, normal_path};
use liquid_strings::{pieces, replace};
use std::alloc::{AllocError, Global};

/// Returns the URL in its normal form.
///
/// The scheme and the host are in lower case, and the port is left out if it is empty or the usual one. The path has no white
/// space at its ends, and no `.` and `..` after the root; of a URL of the web it is at least `/`. The path, the query and the
/// fragment are clean parts of a URL, as by [`clean`], and an empty query or fragment is left out with its mark.
pub fn normal_url(alloc: Global, text: &str) -> Result<String, AllocError>
    ensures { IfOk result (λ t. string_bytes t ≡ Spec.normal_url text.now) }
{
    let parts = parts_of_url(text);
    let scheme = scheme_name(alloc, parts.scheme)?;
    let mut url = String::with_capacity(alloc, text.len())?;
    push_scheme(&mut url, scheme.as_str())?;
    push_authority(alloc, &mut url, scheme.as_str(), parts.authority)?;
    push_path(alloc, &mut url, scheme.as_str(), parts.path)?;
    push_query(alloc, &mut url, parts.query)?;
    push_fragment(alloc, &mut url, parts.fragment)?;
    Ok(url)
}

/// Returns the scheme in lower case, or the empty string if there is none.
fn scheme_name(alloc: Global, scheme: Option<&str>) -> Result<String, AllocError>
    ensures { IfOk result (λ t. string_bytes t ≡ Spec.scheme_name (option_map (λ s. s.now) scheme.entry)) }
{
    match scheme {
        Some(scheme) => scheme.to_ascii_lowercase(alloc),
        None => Ok(String::new(alloc)),
    }
}

fn push_scheme(url: &mut String, scheme: &str) -> Result<(), AllocError>
    ensures { OnOk result (string_bytes url.new ≡ string_bytes url.old ++ Spec.scheme_text scheme.now) }
{
    if scheme.is_empty() {
        return Ok(());
    }
    url.push_str(scheme)?;
    Ok(url.push_str(":")?)
}

/// Adds the authority after its mark, if there is one.
fn push_authority(
    alloc: Global,
    url: &mut String,
    scheme: &str,
    authority: Option<&str>,
) -> Result<(), AllocError>
    ensures { OnOk result (string_bytes url.new ≡ string_bytes url.old
        ++ Spec.authority_text scheme.now (option_map (λ a. a.now) authority.entry)) }
{
    match authority {
        Some(authority) => {
            url.push_str("//")?;
            push_user_and_host(alloc, url, scheme, authority)
        }
        None => Ok(()),
    }
}

/// Adds the path, or `/` for the empty path of a URL of the web.
fn push_path(alloc: Global, url: &mut String, scheme: &str, path: &str) -> Result<(), AllocError>
    ensures { OnOk result (string_bytes url.new ≡ string_bytes url.old ++ Spec.path_text scheme.now path.now) }
{
    let path = normal_path(alloc, path)?;
    if path.as_str().is_empty() && has_root(scheme) {
        return Ok(url.push_str("/")?);
    }
    Ok(url.push_str(path.as_str())?)
}

/// Returns `true` if an empty path means the root in a URL of this scheme.
fn has_root(scheme: &str) -> bool
    ensures { result ≡ Spec.has_root scheme.now }
{
    scheme == "http" || scheme == "https" || scheme == "ftp" || scheme == "tftp"
}

/// Adds the query after its mark, unless there is none or it is empty.
fn push_query(alloc: Global, url: &mut String, query: Option<&str>) -> Result<(), AllocError>
    ensures { OnOk result (string_bytes url.new ≡ string_bytes url.old ++ Spec.query_text (option_map (λ q. q.now) query.entry)) }
{
    match query {
        Some(query) => if query.is_empty() {
            Ok(())
        } else {
            let query = normal_query(alloc, query)?;
            url.push_str("?")?;
            Ok(url.push_str(query.as_str())?)
        },
        None => Ok(()),
    }
}

/// Returns the query with clean fields between `&`.
#[tactic(auto, using(liquid_strings::proofs::PieceLemmas::join_by_view))]
fn normal_query(alloc: Global, query: &str) -> Result<String, AllocError>
    ensures { IfOk result (λ t. string_bytes t ≡ Spec.normal_query query.now) }
{
    let query = replace(alloc, query, "%2b", "%2B")?;
    let fields = pieces(alloc, query.as_str(), "&")?;
    let fields = clean_fields(alloc, fields.as_slice())?;
    fields.join(alloc, "&")
}

fn clean_fields(alloc: Global, fields: &[&str]) -> Result<Vec<String>, AllocError>
    ensures { IfOk result (λ v. map (λ s. string_bytes s) v.items ≡ map Spec.normal_field (map (λ p. p.now) fields.now)) }
{
    let mut all = Vec::with_capacity(alloc, fields.len())?;
    for field in fields {
        all.push(clean_field(alloc, *field)?)?;
    }
    Ok(all)
}

/// Returns the field as a clean part of a URL. The escape of a plus sign stays, since the sign itself means a space.
#[tactic(auto, using(liquid_strings::proofs::PieceLemmas::join_by_view))]
fn clean_field(alloc: Global, field: &str) -> Result<String, AllocError>
    ensures { IfOk result (λ t. string_bytes t ≡ Spec.normal_field field.now) }
{
    let parts = pieces(alloc, field, "%2B")?;
    let parts = clean_all(alloc, parts.as_slice(), UrlPart::Field)?;
    parts.join(alloc, "%2B")
}

/// Adds the fragment after its mark, unless there is none or it is empty.
fn push_fragment(alloc: Global, url: &mut String, fragment: Option<&str>) -> Result<(), AllocError>
    ensures { OnOk result (string_bytes url.new ≡ string_bytes url.old ++ Spec.fragment_text (option_map (λ f. f.now) fragment.entry)) }
{
    match fragment {
        Some(fragment) => if fragment.is_empty() {
            Ok(())
        } else {
            let fragment = clean(alloc, fragment, UrlPart::Fragment)?;
            url.push_str("#")?;
            Ok(url.push_str(fragment.as_str())?)
        },
        None => Ok(()),
    }
}
