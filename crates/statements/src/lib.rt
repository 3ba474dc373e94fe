// The demands of document 00, and those of document 02, tickets 5, 7, 9, 10, 11 and 13, said of the operations
// themselves: each function here only calls public operations, and promises the demand. Nothing is assumed of an
// argument but its type. The clause `refused` is demand 1, "then no byte of any lent area has changed", and `whole` the
// complete answer of the operations. Definitions: specs/.
// The answers are C's: the theorems speak of their fields.
#![tactic(auto)]

ghost use Rattle.std.specs.Prelude.{◌≡◌, ◌↔◌, List, ℕ, length};
ghost use Rattle.outcome.specs.Refusal.{no_packed_body};
ghost use Rattle.resolution.specs.declared.Resolution.{Resolution};
ghost use Rattle.unpack.specs.AcceptsRow.{AcceptsRow};
ghost use Rattle.outcome.specs.declared.Refusal.{Refusal};
ghost use Rattle.gem_img.specs.Accepts.{AcceptsImg};
ghost use Rattle.gem_img.specs.Reading.{Image};
ghost use Rattle.gem_img.specs.Refuses.{RefusesImg};
ghost use Rattle.macpaint.specs.Accepts.{AcceptsPlate, plate_given};
ghost use Rattle.writer.specs.Writing.{form_packed};
ghost use Rattle.conversion.specs.declared.Conversion.TheVariants.{ToElite, ToPlain};
ghost use Rattle.conversion.specs.Accepts.{AcceptsToElite, AcceptsToPlain};
ghost use Rattle.demands.specs.Accepted.{Accepts, given};
ghost use Rattle.demands.specs.Refusals.{Refuses};
ghost use Rattle.demands.specs.RoundTrips.{kind_of};
ghost use Rattle.degas.specs.Layout.{plain_length, elite_length};
ghost use Rattle.degas.specs.LeastBody.{NoBodyBelow};
ghost use Rattle.neochrome.specs.Accepts.{AcceptsNeochrome};
ghost use Rattle.spectrum.specs.Accepts.{AcceptsSpc, AcceptsSpectrum};
ghost use Rattle.spectrum.specs.Reading.{Reading};
ghost use Rattle.spectrum.specs.Refuses.{RefusesSpectrum};
ghost use Rattle.statements.specs.Animations.{AcceptsBoth, ShowsBoth, RefusesAsRead, answers_by_list};
ghost use Rattle.statements.specs.Areas.{HoldsScreen, HoldsFile, Stated};
ghost use Rattle.statements.specs.Blank.{zeros, Blank};
ghost use Rattle.statements.specs.Conversions.{WritesEliteFile, WritesPlainFile, AnswersConversion};
ghost use Rattle.statements.specs.Conversions.{Restores, AnswersRestoring};
ghost use Rattle.statements.specs.Plates.{HoldsPlate, StatedPlate, ReadsPlate, ReadsNoPlate, AnswersPlateRead};
ghost use Rattle.statements.specs.Plates.{blank_plate_file, NoPlateBodyBelow, WritesLeastPlate};
ghost use Rattle.statements.specs.Plates.{PlateNeverAbove, PlateAttained, PlateBothOccur, AnswersPlateWrite};
ghost use Rattle.statements.specs.Plates.{PlateBack, AnswersPlateRoundTrip};
ghost use Rattle.degas_records.specs.Listing.{listed};
ghost use Rattle.statements.specs.Records.{RecordsAsRead};
ghost use Rattle.statements.specs.Reading.{Reads, ReadsNothing, AnswersRead};
ghost use Rattle.statements.specs.RoundTrips.{IsWritten, ReadsBack, AnswersRoundTrip};
ghost use Rattle.statements.specs.Rows.{Packable, PacksLeast, UnpacksToRow, Unpacked, RowRefused};
ghost use Rattle.statements.specs.Rows.{AnswersPack, AnswersUnpack};
ghost use Rattle.statements.specs.Scans.{AcceptsSome, ReadsImage, ReadsNoImage, AnswersImgRead, white_line_file};
ghost use Rattle.statements.specs.Spectrum.{HoldsPaletteWords, AcceptsReading, ReadsSpectrum, ShowsPlanes};
ghost use Rattle.statements.specs.Spectrum.{ReadsNoSpectrum, AnswersSpectrumRead, BlankSpectrum};
ghost use Rattle.statements.specs.Writing.{WritesLeast, NeverAbove, Attained, BothOccur};
ghost use Rattle.statements.specs.Writing.{WritesNothing, AnswersWrite};

use bodies::BodyAnswer;
use conversion::Conversion;
use degas_records::{CursorAnswer, ListedRecord};
use gem_img::ImgAnswer;
use neochrome_animation::{AnimationAnswer, FormatList};
use outcome::Refusal;
use packbits::RowAnswer;
use picture::{Picture, ReadAnswer, WriteAnswer};
use reader::Kind;
use writer::Form;

// The answers of a writing and of its reading back.
#[derive(Clone, Copy)]
pub struct RoundTrip {
    pub written: WriteAnswer,
    pub read: ReadAnswer,
}

// The answers of both lists.
#[derive(Clone, Copy)]
pub struct AnswersByList {
    pub list_1989: AnimationAnswer,
    pub list_2008: AnimationAnswer,
}

// The answers of a plate's writing and of its reading back.
#[derive(Clone, Copy)]
pub struct PlateRoundTrip {
    pub written: WriteAnswer,
    pub read: BodyAnswer,
}

// The answers of a conversion to Elite and of the conversion back.
#[derive(Clone, Copy)]
pub struct ConversionRoundTrip {
    pub to_elite: WriteAnswer,
    pub to_plain: WriteAnswer,
}

// Demand 2: "Given a lent area of the stated size, a file of a known kind is accepted exactly when its flag and
// resolution are allowed, its parts fit and its runs fill every plane row exactly." And what an accepted file gives:
// "resolution, palette, every register of every pixel and every count". The blank files are accepted.
pub fn read_file(kind: u8, file: &[u8], area: &mut [u8]) -> ReadAnswer
    ensures exactly { HoldsScreen area.old → (result.refusal.number ≡ 0) ↔ Accepts kind file.now }
    ensures accepted { HoldsScreen area.old → (fits : Accepts kind file.now)
        → Reads (given fits) result area.old area.new }
    ensures blank { HoldsScreen area.old → Blank kind file.now → result.refusal.number ≡ 0 }
    ensures refused { Refuses result.refusal → ReadsNothing result area.old area.new }
    ensures whole { AnswersRead kind file.now result area.old area.new }
{
    reader::read(kind, file, area).into()
}

// Demand 3: "Given resolution 0, 1 or 2 and lent areas of at least the stated sizes, whatever the screen, palette and
// tail, the packed writer refuses, with 9, exactly when no byte string under 32,000 bytes unpacks to that screen at
// that resolution. Otherwise it writes the picture's form 3". How long a screen's least body can be; and both occur.
pub fn write_packed(picture: Picture, screen: &[u8], out: &mut [u8]) -> WriteAnswer
    ensures exactly { (r : Resolution) → Stated r picture screen.now out.old
        → (result.refusal.number ≡ no_packed_body) ↔ NoBodyBelow r screen.now }
    ensures otherwise { (r : Resolution) → Stated r picture screen.now out.old
        → (NoBodyBelow r screen.now → ⊥)
        → WritesLeast r picture screen.now result out.old out.new }
    ensures bound { ((r : Resolution) → NeverAbove r screen.now) × ((r : Resolution) → Attained r) }
    ensures occur { (r : Resolution) → Stated r picture screen.now out.old
        → BothOccur r screen.now result }
    ensures refused { Refuses result.refusal → WritesNothing result out.old out.new }
    ensures whole { AnswersWrite form_packed picture screen.now result out.old out.new }
{
    writer::write(
        Form::Degas(degas::Form::Packed).number(),
        picture,
        screen,
        out,
    )
    .into()
}

// The kind that a form is read back as.
// By number: the clause `whole` of `write_and_read` speaks of it.
fn kind_of(form: u8) -> u8
    ensures { result ≡ kind_of form }
{
    if form == Form::Neochrome.number() {
        Kind::Neochrome as u8
    } else {
        Kind::Degas as u8
    }
}

// Demand 2: "Writing a picture and reading it back gives the same resolution, palette and registers, with the tail that
// document 01 names for the form." The file is the output's front, as long as the writing answers; a writing that is
// refused is not read back.
pub fn write_and_read(
    form: u8,
    picture: Picture,
    screen: &[u8],
    out: &mut [u8],
    area: &mut [u8],
) -> RoundTrip
    ensures back { HoldsScreen area.old → result.written.refusal.number ≡ 0
        → ReadsBack form picture screen.now result area.new }
    ensures written { (r : Resolution) → Stated r picture screen.now out.old
        → IsWritten form r screen.now → result.written.refusal.number ≡ 0 }
    ensures whole { AnswersRoundTrip form picture screen.now result out.old out.new
        area.old area.new }
{
    let written = writer::write(form, picture, screen, out);
    let read = match written {
        Ok(file) => reader::read(kind_of(form), &out[..file.length], area),
        Err(why) => Err(why),
    };
    RoundTrip {
        written: written.into(),
        read: read.into(),
    }
}

// Document 01: "The writer's row is the shortest byte string that unpacks to the row; among equally short ones, the
// first in dictionary order of unsigned bytes."
pub fn pack_row_least(row: &[u8], out: &mut [u8]) -> RowAnswer
    ensures exactly { (result.refusal.number ≡ 0) ↔ Packable row.now out.old }
    ensures least { Packable row.now out.old
        → PacksLeast row.now result out.old out.new }
    ensures refused { Refuses result.refusal → RowRefused result out.old out.new }
    ensures whole { AnswersPack row.now result out.old out.new }
{
    pack::pack_row(row, out).into()
}

// Document 01: "A byte string, however long, unpacks to a row when its records fill the row with exactly that row's
// bytes, none lacks bytes or crosses the row's end, and the record that fills the row is the string's last."
pub fn unpack_row_exactly(packed: &[u8], width: usize, out: &mut [u8]) -> RowAnswer
    ensures exactly { (result.refusal.number ≡ 0) ↔ UnpacksToRow packed.now width out.old }
    ensures accepted { (used records : ℕ) (row : List ℕ)
        → AcceptsRow packed.now width (length out.old) used records row
        → Unpacked used records row result out.old out.new }
    ensures refused { Refuses result.refusal → RowRefused result out.old out.new }
    ensures whole { AnswersUnpack packed.now width result out.old out.new }
{
    unpack::unpack_row(packed, width, out).into()
}

// Document 02, ticket 9: a MacPaint file is "accepted exactly when no listed refusal comes" (ticket 5), and what an
// accepted file gives. The blank plate's file is accepted.
pub fn read_plate(file: &[u8], plate: &mut [u8]) -> BodyAnswer
    ensures exactly { HoldsPlate plate.old → (result.refusal.number ≡ 0) ↔ AcceptsPlate file.now }
    ensures accepted { HoldsPlate plate.old → (fits : AcceptsPlate file.now)
        → ReadsPlate (plate_given fits) result plate.old plate.new }
    ensures blank { HoldsPlate plate.old → file.now ≡ blank_plate_file → result.refusal.number ≡ 0 }
    ensures refused { Refuses result.refusal → ReadsNoPlate result plate.old plate.new }
    ensures whole { AnswersPlateRead file.now result plate.old plate.new }
{
    macpaint::read(file, plate).into()
}

// Document 02, ticket 11, with demands 1 and 2: a file is accepted exactly when its header is within the profile and
// all the bytes behind it make its lines, and what it then gives; refused, and why, exactly as the ticket lists it; "a
// file is accepted exactly when no listed refusal comes"; a file of one white line is accepted.
pub fn read_img(file: &[u8], area: &mut [u8]) -> ImgAnswer
    ensures exactly { HoldsScreen area.old → (result.refusal.number ≡ 0) ↔ AcceptsSome file.now }
    ensures accepted { HoldsScreen area.old → (image : Image) → AcceptsImg file.now image
        → ReadsImage image result area.old area.new }
    ensures listed { (why : Refusal) → RefusesImg file.now (length area.old) why
        → ReadsNoImage why result area.old area.new }
    ensures refused { Refuses result.refusal → RefusesImg file.now (length area.old) result.refusal
        × ReadsNoImage result.refusal result area.old area.new }
    ensures unlisted { (result.refusal.number ≡ 0)
        ↔ ((why : Refusal) → RefusesImg file.now (length area.old) why → ⊥) }
    ensures blank { HoldsScreen area.old → file.now ≡ white_line_file → result.refusal.number ≡ 0 }
    ensures whole { AnswersImgRead file.now result area.old area.new }
{
    gem_img::read(file, area).into()
}

// Document 02, ticket 5, with demands 1 and 2: a Spectrum 512 file is accepted exactly when it has the parts of its
// kind, and what it then gives, of an SPC file also the register of each pixel; refused, and why, exactly as the ticket
// lists it; "a file is accepted exactly when no listed refusal comes"; blank files are accepted.
pub fn read_spectrum(kind: u8, file: &[u8], screen: &mut [u8], palettes: &mut [u16]) -> Refusal
    ensures exactly { (result.number ≡ 0)
        ↔ AcceptsReading kind file.now screen.old palettes.old }
    ensures accepted { (r : Reading) → AcceptsSpectrum file.now (length screen.old)
        (length palettes.old) r kind
        → ReadsSpectrum r result screen.old screen.new palettes.old
        palettes.new }
    ensures registers { HoldsScreen screen.old → HoldsPaletteWords palettes.old → kind ≡ 5
        → (r : Reading) → (fits : AcceptsSpc file.now r)
        → ShowsPlanes fits.planes screen.new }
    ensures listed { (why : Refusal) → RefusesSpectrum file.now (length screen.old)
        (length palettes.old) kind why
        → ReadsNoSpectrum why result screen.old screen.new palettes.old
        palettes.new }
    ensures refused { Refuses result → RefusesSpectrum file.now (length screen.old)
        (length palettes.old) kind result
        × ReadsNoSpectrum result result screen.old screen.new palettes.old
        palettes.new }
    ensures unlisted { (result.number ≡ 0) ↔ ((why : Refusal) → RefusesSpectrum file.now (length screen.old)
        (length palettes.old) kind why → ⊥) }
    ensures blank { HoldsScreen screen.old → HoldsPaletteWords palettes.old
        → BlankSpectrum kind file.now → result.number ≡ 0 }
    ensures whole { AnswersSpectrumRead kind file.now result screen.old screen.new
        palettes.old palettes.new }
{
    spectrum::read(kind, file, screen, palettes).into()
}

// Document 02, ticket 9: "Demand 3's exactness holds with this limit, a plate's 720 rows standing for the plane rows
// and its file being 512 bytes longer than its body; a plate's worst least body is 52,560."
pub fn write_plate(plate: &[u8], out: &mut [u8]) -> WriteAnswer
    ensures exactly { StatedPlate plate.now out.old
        → (result.refusal.number ≡ no_packed_body) ↔ NoPlateBodyBelow plate.now }
    ensures otherwise { StatedPlate plate.now out.old → (NoPlateBodyBelow plate.now → ⊥)
        → WritesLeastPlate plate.now result out.old out.new }
    ensures bound { (HoldsPlate plate.now → PlateNeverAbove plate.now) × PlateAttained }
    ensures occur { StatedPlate plate.now out.old → PlateBothOccur plate.now result }
    ensures refused { Refuses result.refusal → WritesNothing result out.old out.new }
    ensures whole { AnswersPlateWrite plate.now result out.old out.new }
{
    macpaint::write(plate, out).into()
}

// A plate written and read back. The file is the output's front, as long as the writing answers; a writing that is
// refused is not read back.
pub fn write_and_read_plate(plate: &[u8], out: &mut [u8], area: &mut [u8]) -> PlateRoundTrip
    ensures back { HoldsPlate area.old → result.written.refusal.number ≡ 0
        → PlateBack plate.now result area.old area.new }
    ensures written { StatedPlate plate.now out.old → (NoPlateBodyBelow plate.now → ⊥)
        → result.written.refusal.number ≡ 0 }
    ensures whole { AnswersPlateRoundTrip plate.now result out.old out.new area.old
        area.new }
{
    let written = macpaint::write(plate, out);
    let read = match written {
        Ok(file) => macpaint::read(&out[..file.length], area),
        Err(refusal) => Err(refusal),
    };
    PlateRoundTrip {
        written: written.into(),
        read: read.into(),
    }
}

// Document 02, ticket 7: "The plain DEGAS shelf becomes Elite packed where a packed body exists, Elite raw where number
// 9 would come, with a zero tail." Accepted are exactly the plain files with bits 2 to 14 of the first word 0, among
// them the blank one.
pub fn convert_to_elite(file: &[u8], out: &mut [u8]) -> WriteAnswer
    ensures exactly { HoldsFile out.old → (result.refusal.number ≡ 0) ↔ AcceptsToElite file.now }
    ensures accepted { HoldsFile out.old → (plain : AcceptsToElite file.now)
        → WritesEliteFile plain result out.old out.new }
    ensures blank { HoldsFile out.old → file.now ≡ zeros plain_length → result.refusal.number ≡ 0 }
    ensures refused { Refuses result.refusal → WritesNothing result out.old out.new }
    ensures whole { AnswersConversion ToElite file.now result out.old out.new }
{
    conversion::convert(Conversion::ToElite, file, out).into()
}

// The way back: accepted are exactly the Elite files, raw or packed, with a zero tail; the blank raw one is among them,
// though its screen could be packed.
pub fn convert_to_plain(file: &[u8], out: &mut [u8]) -> WriteAnswer
    ensures exactly { HoldsFile out.old → (result.refusal.number ≡ 0) ↔ AcceptsToPlain file.now }
    ensures accepted { HoldsFile out.old → (elite : AcceptsToPlain file.now)
        → WritesPlainFile elite result out.old out.new }
    ensures blank { HoldsFile out.old → file.now ≡ zeros elite_length → result.refusal.number ≡ 0 }
    ensures refused { Refuses result.refusal → WritesNothing result out.old out.new }
    ensures whole { AnswersConversion ToPlain file.now result out.old out.new }
{
    conversion::convert(Conversion::ToPlain, file, out).into()
}

// Document 02, ticket 7: "The way back must restore each plain file byte for byte, given that bits 2 to 14 of its first
// word were 0." The Elite file is the first output's front, as long as the conversion answers; where that is refused
// nothing is converted back.
pub fn convert_and_back(file: &[u8], out: &mut [u8], into: &mut [u8]) -> ConversionRoundTrip
    ensures restored { HoldsFile out.old → HoldsFile into.old → AcceptsToElite file.now
        → Restores file.now result into.old into.new }
    ensures whole { AnswersRestoring file.now result out.old out.new into.old
        into.new }
{
    let to_elite = conversion::convert(Conversion::ToElite, file, out);
    let to_plain = match to_elite {
        Ok(elite) => conversion::convert(Conversion::ToPlain, &out[..elite.length], into),
        Err(refusal) => Err(refusal),
    };
    ConversionRoundTrip {
        to_elite: to_elite.into(),
        to_plain: to_plain.into(),
    }
}

// Document 02, ticket 13: "Each step gives offset, plane row, kind .. and length .., or done, or the whole reading's
// refusal with its place, again on each later step." Step k over a file, from 0: its records come in file order, each
// once, and after them, for every later k, done or the refusal.
pub fn nth_step(file: &[u8], k: usize) -> Result<Option<ListedRecord>, Refusal>
    ensures step { result ≡ listed file.now k }
    ensures records { RecordsAsRead file.now }
{
    let mut cursor = CursorAnswer::from(degas_records::open_records(file)).cursor;
    for _ in 0..k {
        cursor = degas_records::next_record(file, cursor).next;
    }
    degas_records::next_record(file, cursor).found
}

// Document 02, ticket 10: "The 1989 (001) and 2008 (000) lists read the header differently; keep both"; "For an
// accepted file with limits marked valid and word 52 zero, both show the same", and for no other accepted file. What
// both lists show of a file; a refusal is the reader's, under 1989 with 5 in place of 4.
pub fn animation_by_both(file: &[u8]) -> AnswersByList
    ensures exactly { AcceptsBoth file.now result }
    ensures accepted { AcceptsNeochrome file.now → ShowsBoth file.now result }
    ensures as_read { RefusesAsRead file.now result }
    ensures whole { result ≡ answers_by_list file.now }
{
    AnswersByList {
        list_1989: neochrome_animation::animation(FormatList::Of1989 as u8, file).into(),
        list_2008: neochrome_animation::animation(FormatList::Of2008 as u8, file).into(),
    }
}
