//! What is told of a verdict with power cuts in recovery.

ghost use Rattle.command_line.specs.CutVerdicts.{cut_cause_text, cuts_asked, cuts_json, cuts_text, fail_json, fail_line, failing_chain, further_link, judges_none, link_told, links_told, number_or_null, open_json, open_line, pass_json, pass_line, told_fail, told_open, told_pass, told_too_many, told_verdict, too_many_json, too_many_line, verdict_status};
ghost use Rattle.command_line.specs.Progress.{total_text};
ghost use Rattle.std.specs.List.{flat_map};
ghost use Rattle.std.specs.Prelude.{◌≡◌, ◌++◌, IfOk, OnOk, string_bytes};

use crate::judge::cause_text;
use crate::verdicts::{told_too_long, total_json};
use arguments::MostCuts;
use routine_judge::{ChainLink, CutCause, CutsVerdict, RecoveryCuts};
use std::alloc::{AllocError, Global};
use verdict::OpenMoments;

/// How many power cuts in recovery are looked at.
pub(crate) fn cuts_asked(most: MostCuts) -> RecoveryCuts
    ensures { result ≡ cuts_asked most }
{
    match most {
        MostCuts::AtMost(most) => RecoveryCuts::AtMost(most),
        MostCuts::Any => RecoveryCuts::Any,
    }
}

/// The verdict on so many power cuts in recovery, as text or as JSON.
pub(crate) fn told_verdict(
    alloc: Global,
    most: RecoveryCuts,
    verdict: &CutsVerdict,
    json: bool,
) -> Result<String, AllocError>
    ensures { IfOk result (λ text. string_bytes text ≡ told_verdict json most verdict.now) }
{
    match verdict {
        CutsVerdict::Pass { moments, images } => told_pass(alloc, *moments, *images, most, json),
        CutsVerdict::Open {
            moments,
            images,
            open,
        } => told_open(alloc, *moments, *images, *open, most, json),
        CutsVerdict::Fail { chain, cause } => {
            let cause = cut_cause_text(alloc, *cause)?;
            told_fail(alloc, chain, cause.as_str(), json)
        }
        CutsVerdict::TooMany { moment, cuts } => told_too_many(alloc, *moment, *cuts, json),
        CutsVerdict::TooLong { moment } => told_too_long(alloc, *moment, json),
    }
}

/// The status on which a verdict ends.
pub(crate) fn verdict_status(verdict: &CutsVerdict) -> u8
    ensures { result ≡ verdict_status verdict.now }
{
    match verdict {
        CutsVerdict::Pass { .. } => 0,
        CutsVerdict::Fail { .. } => 1,
        CutsVerdict::Open { .. } | CutsVerdict::TooMany { .. } | CutsVerdict::TooLong { .. } => 3,
    }
}

/// Whether the verdict is on no moment.
pub(crate) fn judges_none(verdict: &CutsVerdict) -> bool
    ensures { result ≡ judges_none verdict.now }
{
    matches!(verdict, CutsVerdict::Pass { moments: 0, .. })
}

/// The power cuts that are explained: those of a failure, where that is asked for.
pub(crate) fn failing_chain(why: bool, verdict: &CutsVerdict) -> &[ChainLink]
    ensures { result.now ≡ failing_chain why verdict.now }
{
    match verdict {
        CutsVerdict::Fail { chain, .. } if why => chain,
        _ => &[],
    }
}

/// The moments stay right.
fn told_pass(
    alloc: Global,
    moments: u64,
    images: Option<u64>,
    most: RecoveryCuts,
    json: bool,
) -> Result<String, AllocError>
    ensures { IfOk result (λ text. string_bytes text ≡ told_pass json moments images most) }
{
    if json {
        pass_json(alloc, moments, images, most)
    } else {
        pass_line(alloc, moments, images, most)
    }
}

/// The moments stay right but those that are open.
fn told_open(
    alloc: Global,
    moments: u64,
    images: Option<u64>,
    undecided: OpenMoments,
    most: RecoveryCuts,
    json: bool,
) -> Result<String, AllocError>
    ensures { IfOk result (λ text. string_bytes text ≡ told_open json moments images undecided most) }
{
    if json {
        open_json(alloc, moments, images, undecided, most)
    } else {
        open_line(alloc, moments, images, undecided, most)
    }
}

/// A chain of power cuts leaves a bad image.
fn told_fail(
    alloc: Global,
    chain: &[ChainLink],
    cause: &str,
    json: bool,
) -> Result<String, AllocError>
    ensures { IfOk result (λ text. string_bytes text ≡ told_fail json chain.now cause.now) }
{
    if json {
        fail_json(alloc, chain, cause)
    } else {
        fail_line(alloc, chain, cause)
    }
}

/// What is left of a moment takes too many runs.
fn told_too_many(
    alloc: Global,
    moment: u32,
    decided: Option<u32>,
    json: bool,
) -> Result<String, AllocError>
    ensures { IfOk result (λ text. string_bytes text ≡ told_too_many json moment decided) }
{
    if json {
        too_many_json(alloc, moment, decided)
    } else {
        too_many_line(alloc, moment, decided)
    }
}

/// As of `judge` without power cuts in recovery, or `changed`.
fn cut_cause_text(alloc: Global, cause: CutCause) -> Result<String, AllocError>
    ensures { IfOk result (λ text. string_bytes text ≡ cut_cause_text cause) }
{
    match cause {
        CutCause::Judged(cause) => cause_text(alloc, cause),
        CutCause::Changed => format!(in alloc; "changed"),
    }
}

/// The number of power cuts in recovery, or `any`.
fn cuts_text(alloc: Global, most: RecoveryCuts) -> Result<String, AllocError>
    ensures { IfOk result (λ text. string_bytes text ≡ cuts_text most) }
{
    match most {
        RecoveryCuts::AtMost(most) => format!(in alloc; "{most}"),
        RecoveryCuts::Any => format!(in alloc; "any"),
    }
}

/// The same in JSON.
fn cuts_json(alloc: Global, most: RecoveryCuts) -> Result<String, AllocError>
    ensures { IfOk result (λ text. string_bytes text ≡ cuts_json most) }
{
    match most {
        RecoveryCuts::AtMost(most) => format!(in alloc; "{most}"),
        RecoveryCuts::Any => format!(in alloc; "\"any\""),
    }
}

/// The sum of the numbers of images; `over` where a moment has over 65,536.
fn total_text(alloc: Global, images: Option<u64>) -> Result<String, AllocError>
    ensures { IfOk result (λ text. string_bytes text ≡ total_text images) }
{
    match images {
        Some(images) => format!(in alloc; "{images}"),
        None => format!(in alloc; "over"),
    }
}

fn number_or_null(alloc: Global, number: Option<u32>) -> Result<String, AllocError>
    ensures { IfOk result (λ text. string_bytes text ≡ number_or_null number) }
{
    match number {
        Some(number) => format!(in alloc; "{number}"),
        None => format!(in alloc; "null"),
    }
}

/// `pass moments=N images=N recovery-cuts=K`.
fn pass_line(
    alloc: Global,
    moments: u64,
    images: Option<u64>,
    most: RecoveryCuts,
) -> Result<String, AllocError>
    ensures { IfOk result (λ text. string_bytes text ≡ pass_line moments images most) }
{
    let images = total_text(alloc, images)?;
    let cuts = cuts_text(alloc, most)?;
    format!(in alloc; "pass moments={moments} images={images} recovery-cuts={cuts}\n")
}

/// The same with ` open=K first=M` for the moments that are open.
fn open_line(
    alloc: Global,
    moments: u64,
    images: Option<u64>,
    undecided: OpenMoments,
    most: RecoveryCuts,
) -> Result<String, AllocError>
    ensures { IfOk result (λ text. string_bytes text ≡ open_line moments images undecided most) }
{
    let OpenMoments { count, first } = undecided;
    let images = total_text(alloc, images)?;
    let cuts = cuts_text(alloc, most)?;
    format!(in alloc;
        "pass moments={moments} images={images} open={count} first={first} recovery-cuts={cuts}\n"
    )
}

/// `fail moment=M image=NAME then moment=M image=NAME .. cause=C`.
fn fail_line(alloc: Global, chain: &[ChainLink], cause: &str) -> Result<String, AllocError>
    ensures { IfOk result (λ text. string_bytes text ≡ fail_line chain.now cause.now) }
{
    let links = links_told(alloc, chain, false)?;
    format!(in alloc; "fail{links} cause={cause}\n")
}

/// `too many moment=M`, with ` recovery-cuts=K` where up to K cuts in recovery were decided.
fn too_many_line(alloc: Global, moment: u32, decided: Option<u32>) -> Result<String, AllocError>
    ensures { IfOk result (λ text. string_bytes text ≡ too_many_line moment decided) }
{
    match decided {
        Some(most) => format!(in alloc; "too many moment={moment} recovery-cuts={most}\n"),
        None => format!(in alloc; "too many moment={moment}\n"),
    }
}

/// `{"kind":"pass","moments":N,"images":N,"recovery_cuts":K}`.
fn pass_json(
    alloc: Global,
    moments: u64,
    images: Option<u64>,
    most: RecoveryCuts,
) -> Result<String, AllocError>
    ensures { IfOk result (λ text. string_bytes text ≡ pass_json moments images most) }
{
    let images = total_json(alloc, images)?;
    let cuts = cuts_json(alloc, most)?;
    format!(in alloc;
        "{{\"kind\":\"pass\",\"moments\":{moments},\"images\":{images},\"recovery_cuts\":{cuts}}}\n"
    )
}

/// The same with `"open":K,"first":M` for the moments that are open.
fn open_json(
    alloc: Global,
    moments: u64,
    images: Option<u64>,
    undecided: OpenMoments,
    most: RecoveryCuts,
) -> Result<String, AllocError>
    ensures { IfOk result (λ text. string_bytes text ≡ open_json moments images undecided most) }
{
    let OpenMoments { count, first } = undecided;
    let images = total_json(alloc, images)?;
    let cuts = cuts_json(alloc, most)?;
    format!(in alloc;
        "{{\"kind\":\"pass\",\"moments\":{moments},\"images\":{images},\"open\":{count},\"first\":{first},\"recovery_cuts\":{cuts}}}\n"
    )
}

/// `{"kind":"fail","moment":M,"image":"NAME","cause":"C","recovery":[..]}`, with the further power cuts in the list.
fn fail_json(alloc: Global, chain: &[ChainLink], cause: &str) -> Result<String, AllocError>
    ensures { IfOk result (λ text. string_bytes text ≡ fail_json chain.now cause.now) }
{
    let [link, further @ ..] = chain else {
        return Ok(String::new(alloc));
    };
    let ChainLink { moment, image } = link;
    let links = links_told(alloc, further, true)?;
    format!(in alloc;
        "{{\"kind\":\"fail\",\"moment\":{moment},\"image\":\"{image}\",\"cause\":\"{cause}\",\"recovery\":[{links}]}}\n"
    )
}

/// `{"kind":"too many","moment":M,"recovery_cuts":K}`, or `null` where the moment's own images are too many.
fn too_many_json(alloc: Global, moment: u32, decided: Option<u32>) -> Result<String, AllocError>
    ensures { IfOk result (λ text. string_bytes text ≡ too_many_json moment decided) }
{
    let most = number_or_null(alloc, decided)?;
    format!(in alloc; "{{\"kind\":\"too many\",\"moment\":{moment},\"recovery_cuts\":{most}}}\n")
}

/// Power cuts one after the other, as text or as JSON.
fn links_told(alloc: Global, links: &[ChainLink], json: bool) -> Result<String, AllocError>
    ensures { IfOk result (λ text. string_bytes text ≡ links_told json links.now) }
{
    match links {
        [] => Ok(String::new(alloc)),
        [link, further @ ..] => links_behind(alloc, link, further, json),
    }
}

/// A power cut, and further ones behind it.
fn links_behind(
    alloc: Global,
    link: &ChainLink,
    further: &[ChainLink],
    json: bool,
) -> Result<String, AllocError>
    ensures { IfOk result (λ text. string_bytes text ≡ link_told json link.now ++ flat_map (further_link json) further.now) }
{
    let mut text = link_told(alloc, link, json)?;
    push_links(alloc, &mut text, further, json)?;
    Ok(text)
}

/// Adds further power cuts.
#[tactic(auto, using(crate::proofs::Texts::text_more, crate::proofs::Texts::texts_all))]
fn push_links(
    alloc: Global,
    text: &mut String,
    links: &[ChainLink],
    json: bool,
) -> Result<(), AllocError>
    ensures { OnOk result (string_bytes text.new ≡ string_bytes text.old ++ flat_map (further_link json) links.now) }
{
    for link in links {
        let further = further_link(alloc, link, json)?;
        text.push_str(further.as_str())?;
    }
    Ok(())
}

/// A further power cut, behind ` then` or a comma.
fn further_link(alloc: Global, link: &ChainLink, json: bool) -> Result<String, AllocError>
    ensures { IfOk result (λ text. string_bytes text ≡ further_link json link.now) }
{
    let link = link_told(alloc, link, json)?;
    if json {
        format!(in alloc; ",{link}")
    } else {
        format!(in alloc; " then{link}")
    }
}

/// ` moment=M image=NAME`, or `{"moment":M,"image":"NAME"}`.
fn link_told(alloc: Global, link: &ChainLink, json: bool) -> Result<String, AllocError>
    ensures { IfOk result (λ text. string_bytes text ≡ link_told json link.now) }
{
    let ChainLink { moment, image } = link;
    if json {
        format!(in alloc; "{{\"moment\":{moment},\"image\":\"{image}\"}}")
    } else {
        format!(in alloc; " moment={moment} image={image}")
    }
}
