ghost use Rattle.std.specs.Prelude.{◌≡◌, ◌≤◌, ◌++◌, take, length, codes, OnOk, OnErr, vec_len};
ghost use Rattle.pkt_line.specs.Spelling.{spelling, spelling_all};
ghost use Rattle.hex.specs.Hex.{encode_lower};
ghost use Rattle.filter_words.specs.Requests.{line, hello_packets, caps_packets, list_packets, can_delay_line};
ghost use Rattle.filter_words.specs.Requests.{smudge_keys, smudge_packets, hello_text, caps_text, list_text};
ghost use Rattle.filter_words.specs.Requests.{keys_text, first_text};
ghost use Rattle.filter_words.specs.Requests.{clean_keys, clean_packets, clean_keys_text, clean_text};

use byte_path::ObjectId;
use pkt_line::{push_content, push_flush, push_line};
use std::alloc::{AllocError, Global};

/// Appends what a client sends first: the lines `git-filter-client` and `version=2`, and flush.
///
/// This call and the others here append texts of gitattributes(5), "Long Running Filter Process". Their only error is
/// out of memory, and then `out` is as it was.
#[tactic(auto, unfolding(crate::specs::Requests::hello_text))]
pub fn push_hello(alloc: Global, out: &mut Vec<u8>) -> Result<(), AllocError>
    ensures ok { OnOk result (out.new.items ≡ out.old.items ++ hello_text) }
    ensures err { OnErr result (out.new.items ≡ out.old.items) }
{
    let before = out.len();
    let pushed = push_hello_packets(alloc, out);
    whole_or_nothing(out, before, pushed)
}

/// Appends the capabilities that a client announces: the lines `capability=clean`, `capability=smudge` and
/// `capability=delay`, in this order, and flush.
#[tactic(auto, unfolding(crate::specs::Requests::caps_text))]
pub fn push_caps(alloc: Global, out: &mut Vec<u8>) -> Result<(), AllocError>
    ensures ok { OnOk result (out.new.items ≡ out.old.items ++ caps_text) }
    ensures err { OnErr result (out.new.items ≡ out.old.items) }
{
    let before = out.len();
    let pushed = push_caps_packets(alloc, out);
    whole_or_nothing(out, before, pushed)
}

/// Appends the request for a list of the delayed paths that are ready: the line `command=list_available_blobs`, and
/// flush.
#[tactic(auto, unfolding(crate::specs::Requests::list_text))]
pub fn push_list(alloc: Global, out: &mut Vec<u8>) -> Result<(), AllocError>
    ensures ok { OnOk result (out.new.items ≡ out.old.items ++ list_text) }
    ensures err { OnErr result (out.new.items ≡ out.old.items) }
{
    let before = out.len();
    let pushed = push_list_packets(alloc, out);
    whole_or_nothing(out, before, pushed)
}

/// Appends the request to smudge a content for a path of 1 to 4,096 bytes: the lines `command=smudge`,
/// `pathname=<path>` and `blob=<name>`, with the name of the path's blob in lower case hexadecimal digits, the line
/// `can-delay=1` if `can_delay`, flush, the content, and flush. A path that was delayed is asked for again without
/// `can_delay` and with an empty content.
#[tactic(auto, unfolding(crate::specs::Requests::first_text))]
pub fn push_smudge(
    alloc: Global,
    out: &mut Vec<u8>,
    path: &[u8],
    name: &ObjectId,
    can_delay: bool,
    content: &[u8],
) -> Result<(), AllocError>
    requires some { 1 ≤ length path.now }
    requires few { length path.now ≤ 4096 }
    ensures ok { OnOk result (out.new.items
        ≡ out.old.items ++ first_text path.now name.now can_delay content.now) }
    ensures err { OnErr result (out.new.items ≡ out.old.items) }
{
    let before = out.len();
    let pushed = push_smudge_packets(alloc, out, path, name, can_delay, content);
    whole_or_nothing(out, before, pushed)
}

/// Appends the key list of such a request alone. Its content follows as packets of at most 65,516 bytes and flush, so a
/// caller that sends a content piece by piece needs no copy of it.
#[tactic(auto, unfolding(crate::specs::Requests::keys_text))]
pub fn push_smudge_keys(
    alloc: Global,
    out: &mut Vec<u8>,
    path: &[u8],
    name: &ObjectId,
    can_delay: bool,
) -> Result<(), AllocError>
    requires some { 1 ≤ length path.now }
    requires few { length path.now ≤ 4096 }
    ensures ok { OnOk result (out.new.items ≡ out.old.items ++ keys_text path.now name.now can_delay) }
    ensures err { OnErr result (out.new.items ≡ out.old.items) }
{
    let before = out.len();
    let pushed = push_key_packets(alloc, out, path, name, can_delay);
    whole_or_nothing(out, before, pushed)
}

/// Appends the request to clean a content of a path of 1 to 4,096 bytes: the lines `command=clean` and
/// `pathname=<path>`, flush, the content, and flush.
#[tactic(auto, unfolding(crate::specs::Requests::clean_text))]
pub fn push_clean(
    alloc: Global,
    out: &mut Vec<u8>,
    path: &[u8],
    content: &[u8],
) -> Result<(), AllocError>
    requires some { 1 ≤ length path.now }
    requires few { length path.now ≤ 4096 }
    ensures ok { OnOk result (out.new.items ≡ out.old.items ++ clean_text path.now content.now) }
    ensures err { OnErr result (out.new.items ≡ out.old.items) }
{
    let before = out.len();
    let pushed = push_clean_packets(alloc, out, path, content);
    whole_or_nothing(out, before, pushed)
}

/// Appends the key list of such a request alone. Its content follows as for `push_smudge_keys`.
#[tactic(auto, unfolding(crate::specs::Requests::clean_keys_text))]
pub fn push_clean_keys(alloc: Global, out: &mut Vec<u8>, path: &[u8]) -> Result<(), AllocError>
    requires some { 1 ≤ length path.now }
    requires few { length path.now ≤ 4096 }
    ensures ok { OnOk result (out.new.items ≡ out.old.items ++ clean_keys_text path.now) }
    ensures err { OnErr result (out.new.items ≡ out.old.items) }
{
    let before = out.len();
    let pushed = push_clean_key_packets(alloc, out, path);
    whole_or_nothing(out, before, pushed)
}

/// Keeps what was pushed, or cuts `out` back if the pushing failed.
fn whole_or_nothing(
    out: &mut Vec<u8>,
    before: usize,
    pushed: Result<(), AllocError>,
) -> Result<(), AllocError>
    ensures same { result ≡ pushed }
    ensures ok { OnOk result (out.new.items ≡ out.old.items) }
    ensures err { OnErr result (out.new.items ≡ take before out.old.items) }
{
    if pushed.is_err() {
        out.truncate(before);
    }
    pushed
}

fn push_hello_packets(alloc: Global, out: &mut Vec<u8>) -> Result<(), AllocError>
    ensures ok { OnOk result (out.new.items ≡ out.old.items ++ spelling_all hello_packets) }
    ensures err { OnErr result (take (vec_len out.old) out.new.items ≡ out.old.items) }
{
    push_line(alloc, out, b"git-filter-client")?;
    push_line(alloc, out, b"version=2")?;
    push_flush(alloc, out)
}

fn push_caps_packets(alloc: Global, out: &mut Vec<u8>) -> Result<(), AllocError>
    ensures ok { OnOk result (out.new.items ≡ out.old.items ++ spelling_all caps_packets) }
    ensures err { OnErr result (take (vec_len out.old) out.new.items ≡ out.old.items) }
{
    push_line(alloc, out, b"capability=clean")?;
    push_line(alloc, out, b"capability=smudge")?;
    push_line(alloc, out, b"capability=delay")?;
    push_flush(alloc, out)
}

fn push_list_packets(alloc: Global, out: &mut Vec<u8>) -> Result<(), AllocError>
    ensures ok { OnOk result (out.new.items ≡ out.old.items ++ spelling_all list_packets) }
    ensures err { OnErr result (take (vec_len out.old) out.new.items ≡ out.old.items) }
{
    push_line(alloc, out, b"command=list_available_blobs")?;
    push_flush(alloc, out)
}

fn push_smudge_packets(
    alloc: Global,
    out: &mut Vec<u8>,
    path: &[u8],
    name: &ObjectId,
    can_delay: bool,
    content: &[u8],
) -> Result<(), AllocError>
    requires { length path.now ≤ 4096 }
    ensures ok { OnOk result
        (out.new.items ≡ out.old.items
        ++ spelling_all (smudge_packets path.now name.now can_delay content.now)) }
    ensures err { OnErr result (take (vec_len out.old) out.new.items ≡ out.old.items) }
{
    push_key_packets(alloc, out, path, name, can_delay)?;
    push_content(alloc, out, content)?;
    push_flush(alloc, out)
}

fn push_key_packets(
    alloc: Global,
    out: &mut Vec<u8>,
    path: &[u8],
    name: &ObjectId,
    can_delay: bool,
) -> Result<(), AllocError>
    requires { length path.now ≤ 4096 }
    ensures ok { OnOk result
        (out.new.items ≡ out.old.items ++ spelling_all (smudge_keys path.now name.now can_delay)) }
    ensures err { OnErr result (take (vec_len out.old) out.new.items ≡ out.old.items) }
{
    push_line(alloc, out, b"command=smudge")?;
    push_pathname(alloc, out, path)?;
    push_blob(alloc, out, name)?;
    push_can_delay(alloc, out, can_delay)?;
    push_flush(alloc, out)
}

fn push_clean_packets(
    alloc: Global,
    out: &mut Vec<u8>,
    path: &[u8],
    content: &[u8],
) -> Result<(), AllocError>
    requires { length path.now ≤ 4096 }
    ensures ok { OnOk result
        (out.new.items ≡ out.old.items ++ spelling_all (clean_packets path.now content.now)) }
    ensures err { OnErr result (take (vec_len out.old) out.new.items ≡ out.old.items) }
{
    push_clean_key_packets(alloc, out, path)?;
    push_content(alloc, out, content)?;
    push_flush(alloc, out)
}

fn push_clean_key_packets(alloc: Global, out: &mut Vec<u8>, path: &[u8]) -> Result<(), AllocError>
    requires { length path.now ≤ 4096 }
    ensures ok { OnOk result (out.new.items ≡ out.old.items ++ spelling_all (clean_keys path.now)) }
    ensures err { OnErr result (take (vec_len out.old) out.new.items ≡ out.old.items) }
{
    push_line(alloc, out, b"command=clean")?;
    push_pathname(alloc, out, path)?;
    push_flush(alloc, out)
}

fn push_can_delay(alloc: Global, out: &mut Vec<u8>, can_delay: bool) -> Result<(), AllocError>
    ensures ok { OnOk result
        (out.new.items ≡ out.old.items ++ spelling_all (can_delay_line can_delay)) }
    ensures err { OnErr result (out.new.items ≡ out.old.items) }
{
    if can_delay {
        push_line(alloc, out, b"can-delay=1")
    } else {
        Ok(())
    }
}

fn push_pathname(alloc: Global, out: &mut Vec<u8>, path: &[u8]) -> Result<(), AllocError>
    requires { length path.now ≤ 4096 }
    ensures ok { OnOk result
        (out.new.items ≡ out.old.items ++ spelling (line (codes "pathname=" ++ path.now))) }
    ensures err { OnErr result (out.new.items ≡ out.old.items) }
{
    let mut text = Vec::from_slice(alloc, b"pathname=")?;
    text.extend_from_slice(path)?;
    push_line(alloc, out, text.as_slice())
}

fn push_blob(alloc: Global, out: &mut Vec<u8>, name: &ObjectId) -> Result<(), AllocError>
    ensures ok { OnOk result
        (out.new.items ≡ out.old.items ++ spelling (line (codes "blob=" ++ encode_lower name.now))) }
    ensures err { OnErr result (out.new.items ≡ out.old.items) }
{
    let mut digits = [0; 40];
    let _ = hex::encode_to_slice(name.as_slice(), &mut digits);
    let mut text = Vec::from_slice(alloc, b"blob=")?;
    text.extend_from_slice(&digits)?;
    push_line(alloc, out, text.as_slice())
}
