//! Words that users of other programs, or of older versions, may type.

// Words that are rejected, and behind a colon the advice that users get instead.
const ADVICE: &str = "\
-M: for Micro QR, add --micro
-d: for pixels per inch, add --dpi; a text needs no option: goqlanis \"some text\"
-8 --8bit: for the fewest bits, add --bytes; for one byte segment, --segment byte:TEXT
-k --kanji: Shift JIS is packed as Kanji by itself: iconv -t SHIFT_JIS a.txt | goqlanis
-e --secure: for the error correction level, add --level L, M, Q or H
-b: only QR codes are made; for Micro QR, add --micro; for the quiet zone, --quiet-zone
WPA-EAP WPA2-EAP WPA3-EAP: enterprise networks have no options; write the text: goqlanis \"WIFI:T:WPA2-EAP;S:..;;\"
--alarm --reminder: events have no alarms here; write the event yourself: goqlanis -i event.ics
--sheet --per-page --paper: each code is a file or a page; to put several on a sheet, place SVG files in a document
-w: for the quiet zone, add --quiet-zone
-c --casesensitive --ignorecase --case: upper and lower case are always kept; leave it out
--file: to encode a file, add --input FILE; to write one, --output FILE
--gs1 --gs1parens: for a GS1 element string: goqlanis gs1 \"(01)09521234543213\"
-S --structured --seq --structapp --structured-append --symbol-count --count --max-version: to split data over several codes: goqlanis split
--batch: for one code for each line, add --lines
--decode decode scan: to decode a picture: goqlanis read PICTURE
--inverse --reverse: for light on dark, add --invert
--transparent --nobackground --no-background: for a transparent background, add --light transparent
--class --cls: for classes of the SVG element, add --svg-class
--id: for an ID of the SVG element, add --svg-id
--svg-path --inline --svg-inline: leave it out: SVG files have one path, and browsers take them inline
--strict-version: leave it out: -v is exact
exam: Python makes exams: python3 -m goqlanis exam FOLDER
--rle --no-classes --no-namespace --no-xmldecl --xmldecl --svgns --nl --draw-transparent: leave it out: SVG files are small as they are
--omitsize: for SVG without a size, add --no-size
--desc: for a description in SVG, add --svg-desc
--title: for a title in SVG, add --svg-title; in PDF, --pdf-title
--compact: for a code of half blocks, add --format half-blocks
--mode: the fewest bits are chosen; for one segment, add --segment byte:TEXT
--no-error-boost: leave it out: only --boost raises the level
--data --text: a text needs no option: goqlanis \"some text\"
--barcode: only QR codes are made; leave it out
--esc: write the characters themselves, e.g. by printf
--timezone --tz --tzid: write the zone behind the time, e.g. 2026-11-28T14:00+01:00
--skip-header --skip-first-line --no-header: if the first line names the columns, add --header
--lines --header --columns --field: this command makes no codes of lines
--manual --completions: ./install and the packages put the manual and completions in place
--rotate: only damage turns codes, with --turn 90; other codes are drawn upright
--bind --box --frame: only the code is drawn; leave it out
--square --dotty --dotsize --dots --round --rounded --shape --style: codes and modules are always square; leave it out
--separator: for the colour of separators, add --finder-light; nothing else sets them
--dark-module: for the colour of the dark module, add --format-dark
--encoding: text is UTF-8; to mark it, add --eci; for another, --charset iso-8859-1
--width --height: for pixels per side, add --size
--scalexdimdp --xdim: for the side of a module, add --module 0.5mm
--gradient: each kind of module has one colour, which --dark and --light set
--caption --label: only the code is drawn; put text beside it in the page or on the label
--address --addr --adr: for an e-mail address, --email; for a postal one, --street, --code and --city
--to --number: for a phone number, add --phone
--payee --beneficiary: for the payee's name, add --name
--duration: for the end, add --end
--micro: GS1 data and the codes of split are never Micro QR; leave it out
txt: for .txt files, --format half-blocks; text has a character per module
utf8 UTF8 unicode: for this, --format half-blocks; terminal adds black on white
utf8i UTF8i ansiutf8i ANSIUTF8i: for light on dark, --format half-blocks --invert
asciii ASCIIi: for light on dark, --format ascii --invert
png32 PNG32: use --format png; for transparency, --light transparent or #rrggbbaa
ansi ANSI ansi256 ANSI256 ansiutf8 ANSIUTF8 ansi256utf8 ANSI256UTF8: for this, --format terminal
jpg JPG jpeg JPEG gif GIF: use --format png, and convert that";

/// Whether a word is a command of other programs that makes a code of a text.
pub(crate) fn makes_a_code(word: &str) -> bool {
    let mut known = "code create encode generate link make qr qrcode text url".split(' ');
    known.any(|known| known == word)
}

/// Returns the advice for a word, if there is some.
pub(crate) fn advice_for(word: &str) -> Option<&'static str> {
    for line in ADVICE.lines() {
        let (words, help) = line.split_once(": ").unwrap_or((line, ""));
        if words.split(' ').any(|known| known == word) {
            return Some(help);
        }
    }
    None
}
