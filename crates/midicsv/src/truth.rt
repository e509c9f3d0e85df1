// The words that some spreadsheet takes for a boolean (docs/SPREADSHEET.md, "The words"), by their length.
ghost use Rattle.std.specs.Prelude.{◌≡◌, ◌≤◌, length};
ghost use Rattle.midicsv.specs.TruthWords.{truth_words};
ghost use Rattle.midicsv.specs.Spell.{listed, is_truth};
ghost use Rattle.midicsv.specs.Code.Words.{words_in};

use super::word::same_name;

// Whether a word is one of those of its length that stand in a row.
fn among(word: &[u8], words: &[u8]) -> bool
    requires { 1 ≤ length word.now }
    ensures { result ≡ listed word.now (words_in (length word.now) words.now) }
{
    words
        .chunks_exact(word.len())
        .any(|other| same_name(word, other))
}

// Whether a word is one of them.
fn is_listed(word: &[u8]) -> bool
    ensures { result ≡ listed word.now truth_words }
{
    match word.len() {
        2 => among(word, b"AOFOIHNE"),
        3 => among(word, b"ALARUNSAITRUVEOVERVREYIW"),
        4 => among(
            word,
            b"BANABEENBERUCERTDISOEGIAFALSFALZFAUSFAUXFAUZGWIRHEWAIGAZMPYAPRAVRASTSANDSANNSANTSOBASONNTAIPTOSITRUETUODVALSVERAVEROVERUVRAIWAARWAHRWAORWIERWOARXARA",
        ),
        5 => among(
            word,
            b"BENARBREUGDAABIDOGRYFALSAFALSEFALSKFALSOFARSUGUA'UHAMISJETNUJITFAKARYAKWELILEPATLERESNAPAKNGOHONIBYOPALSOPALSUPUDNORANGTSALAHSIBYOSOXTATACNOUBBAWUSANNUTHUIVEIRAVERAIVERUMVRAIYVUNWAWAAHRWOPAKWOUER",
        ),
        6 => among(
            word,
            b"APLAMSBERDATBRAEROCHOONADHUGAAEXACTEFALSCHFALSKTFALSUMGIAMANHALALEISTINAMAMALAMARINANGUNTINKALONONWAARONWOAROPLOMSPRAVDAPRAWDAPRAWJEPROWDAQINISOTE'ETETEIGHAVERTAT",
        ),
        7 => among(
            word,
            b"FALTSUAGASKIYAGEZURRAHAQIQIYKITUUFUNETACNONTIYISOPATIESSSIKWELIVERITAT",
        ),
        8 => among(
            word,
            b"CHABODZAEGIAZKOAEQQORTOQNEIGIAMANEISTINANEPRAVDANET WIERTEIGIAMA",
        ),
        9 => among(word, b"NO BERDATTEISINGAIVERDADEROYINYANISO"),
        10 => among(word, b"A SI NGOHOVERDADEIRO"),
        11 => among(word, b"NETEISINGAISSI KITUUFU"),
        12 => among(word, b"ASIYONYANISOEQQUNNGITSOQ"),
        _ => false,
    }
}

// Whether a text is one of them, with or without a blank at its end.
pub fn is_truth(text: &[u8]) -> bool
    ensures { result ≡ is_truth text.now }
{
    is_listed(text.strip_suffix(b" ").unwrap_or(text))
}
