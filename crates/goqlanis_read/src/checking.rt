//! Reports on where codes depart from the standard, as text or JSON.

use goqlanis_options::push_either;
use goqlanis_options::warnings::Decimal;
use goqlanis_request::VersionName;
use qrcode_check::correction::grade_of;
use qrcode_check::modules::WrongModules;
use qrcode_check::segments::BitUse;
use qrcode_check::{Check, Content};
use std::alloc::{AllocError, Global};

/// Appends the report on a code: the rest of its JSON object, or lines of text.
///
/// Errors: only `AllocError`.
pub(crate) fn push_check(
    text: &mut String,
    check: &Check,
    is_json: bool,
) -> Result<(), AllocError> {
    let (version, level) = (VersionName(check.version), check.ec_level);
    let (mask, allowed) = (check.mask_number(), check.allowed);
    let wrong = numbers(*text.allocator(), &check.wrong)?;
    let (unused, grade) = (check.unused, grade_of(check.unused));
    let share = Decimal(unused as u64);
    if !is_json {
        push_verdict(text, check)?;
    }
    push_either!(text, is_json;
        "\"version\": \"{version}\", \"level\": \"{level:?}\", \"mask\": {mask}, \
        \"wrong_by_block\": [{wrong}], \"allowed_by_block\": {allowed}, \
        \"unused_correction\": {share}, \"grade\": \"{grade:?}\", \"wrong_modules\": {{",
        "version {version}, level {level:?}, mask {mask}\n\
        wrong codewords in each block: {wrong}; the standard allows {allowed}\n\
        unused error correction: {unused} %, grade {grade:?}\n\
        wrong modules outside the data: "
    )?;
    push_modules(text, check.modules, is_json)?;
    push_content(text, &check.content, is_json)?;
    push_masks(text, check, is_json)
}

// Appends whether a code meets the standard, and if not, why.
fn push_verdict(text: &mut String, check: &Check) -> Result<(), AllocError> {
    if check.is_standard() {
        return text.push_str("meets the standard: yes\n");
    }
    let reasons = reasons_of(check);
    let mut sign = "meets the standard: no: ";
    for (is_so, reason) in &reasons {
        if *is_so {
            write!(text, "{sign}{reason}")?;
            sign = "; ";
        }
    }
    text.push_str("\n")
}

// Returns why a code may not meet the standard, each with whether it is so.
fn reasons_of(check: &Check) -> [(bool, &'static str); 4] {
    let is_ended = match &check.content {
        Some(Content { ending, .. }) => ending.terminator == 0 && ending.padding == 0,
        None => true,
    };
    [
        (
            !is_whole(check),
            "some modules are wrong, e.g. damaged or under a logo, but corrected",
        ),
        (check.content.is_none(), "the data cannot be decoded"),
        (!is_ended, "bits after the data are wrong"),
        (
            is_whole(check) && !check.has_lowest(),
            "another mask has a lower penalty, though readers take any",
        ),
    ]
}

// Whether no codeword and no module outside the codewords is wrong.
fn is_whole(check: &Check) -> bool {
    check.modules.are_right() && check.wrong.iter().all(|count| *count == 0)
}

/// Lists numbers, separated by commas.
///
/// Errors: only `AllocError`.
pub(crate) fn numbers(alloc: Global, numbers: &[usize]) -> Result<String, AllocError> {
    let mut text = String::new(alloc);
    for number in numbers {
        let sign = if text.is_empty() { "" } else { ", " };
        write!(text, "{sign}{number}")?;
    }
    Ok(text)
}

// Appends how many modules of each pattern are wrong.
fn push_modules(text: &mut String, modules: WrongModules, is_json: bool) -> Result<(), AllocError> {
    let counts = [
        ("finder", modules.finder),
        ("alignment", modules.alignment),
        ("timing", modules.timing),
        ("format", modules.format),
        ("version", modules.version),
        ("remainder", modules.remainder),
    ];
    let mut sign = "";
    for (name, count) in &counts {
        push_either!(text, is_json; "{sign}\"{name}\": {count}", "{sign}{name} {count}")?;
        sign = ", ";
    }
    text.push_str(if is_json { "}, " } else { "\n" })
}

// Appends the findings about the data.
fn push_content(
    text: &mut String,
    content: &Option<Content>,
    is_json: bool,
) -> Result<(), AllocError> {
    let Some(content) = content else {
        return push_either!(text, is_json;
            "\"segments\": false",
            "data: its bits are not segments and a terminator\n"
        );
    };
    push_taken(text, content.taken, is_json)?;
    let (terminator, padding) = (content.ending.terminator, content.ending.padding);
    let (guessed, is_utf8) = (content.guesses.segments, content.guesses.are_utf8);
    let set = match (guessed, is_utf8) {
        (0, _) => "",
        (_, true) => ", UTF-8",
        (_, false) => ", not all UTF-8",
    };
    push_either!(text, is_json;
        ", \"wrong_terminator\": {terminator}, \"wrong_padding\": {padding}, \
        \"guessed_segments\": {guessed}, \"guessed_utf8\": {is_utf8}",
        "wrong bits after the data: terminator {terminator}, padding {padding}\n\
        segments whose character set readers guess: {guessed}{set}\n"
    )
}

// Appends how many bits the data takes, and how many would do.
fn push_taken(text: &mut String, taken: Option<BitUse>, is_json: bool) -> Result<(), AllocError> {
    match taken {
        Some(BitUse { bits, least }) => {
            let more = bits.saturating_sub(least);
            push_either!(text, is_json;
                "\"segments\": true, \"bits\": {bits}, \"fewest_bits\": {least}",
                "data: {bits} bits, {more} more than needed\n"
            )
        }
        None => push_either!(text, is_json;
            "\"segments\": true",
            "data: with headers such as FNC1, not compared with the fewest bits\n"
        ),
    }
}

// Appends how many masks have a lower penalty: with the dark share rounded as in the standard, and
// unrounded as in this project, in text only if that differs. If modules are wrong, penalties mean
// nothing, and text has none.
fn push_masks(text: &mut String, check: &Check, is_json: bool) -> Result<(), AllocError> {
    let (stepped, own, is_standard) = (check.stepped, check.own, check.is_standard());
    if is_json {
        return write!(
            text,
            ", \"masks\": {{\"lower\": {}, \"same_before\": {}}}, \
            \"masks_here\": {{\"lower\": {}, \"same_before\": {}}}, \"standard\": {is_standard}}}",
            stepped.lower, stepped.equal, own.lower, own.equal
        );
    }
    if !is_whole(check) {
        return Ok(());
    }
    write!(text, "masks with a lower penalty: {}", stepped.lower)?;
    if own.lower != stepped.lower {
        let lower = own.lower;
        write!(
            text,
            "; {lower} if the share of dark modules is not rounded to 5 %"
        )?;
    }
    text.push_str("\n")
}
