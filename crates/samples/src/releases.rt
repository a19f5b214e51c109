//! The sample releases: their files, and how they are found by name.

ghost use Rattle.std.specs.Prelude.{◌≡◌, IfOk, option_map};
ghost use Rattle.import_check.specs.Release.{files_of};
ghost use Rattle.samples.specs.Sample.{sample_files};
ghost use Rattle.samples.specs.Private.SampleFiles.{texts_of};

use import_check::{Release, ReleaseFile};
use rf2_values::Kind;
use std::alloc::{AllocError, Global};

/// A file of a sample: its name, its kind and its text.
struct SampleFile {
    name: &'static str,
    kind: Kind,
    text: &'static str,
}

/// The release of January 2020: three concepts, a description and two relationships.
const FIRST: [SampleFile; 3] = [
    SampleFile {
        name: "sct2_Concept_Delta_INT_20200131.txt",
        kind: Kind::Concept,
        text: "id\teffectiveTime\tactive\tmoduleId\tdefinitionStatusId\r\n\
               138875005\t20200131\t1\t900000000000207008\t900000000000074008\r\n\
               1000004\t20200131\t1\t900000000000207008\t900000000000074008\r\n\
               2000001\t20200131\t1\t900000000000207008\t900000000000074008\r\n",
    },
    SampleFile {
        name: "sct2_Description_Delta-en_INT_20200131.txt",
        kind: Kind::Description,
        text: "id\teffectiveTime\tactive\tmoduleId\tconceptId\tlanguageCode\ttypeId\tterm\t\
                 caseSignificanceId\r\n\
               1000015\t20200131\t1\t900000000000207008\t1000004\tde\t900000000000013009\tStraße\t\
                 900000000000448009\r\n",
    },
    SampleFile {
        name: "sct2_Relationship_Delta_INT_20200131.txt",
        kind: Kind::Relationship,
        text: "id\teffectiveTime\tactive\tmoduleId\tsourceId\tdestinationId\trelationshipGroup\t\
               typeId\tcharacteristicTypeId\tmodifierId\r\n\
               1000027\t20200131\t1\t900000000000207008\t1000004\t138875005\t0\t116680003\t\
                 900000000000011006\t900000000000451002\r\n\
               2000029\t20200131\t1\t900000000000207008\t1000004\t138875005\t0\t116680003\t\
                 900000000000011006\t900000000000451002\r\n",
    },
];

/// The release of January 2021: a concept and a relationship are retired, a
/// description gets another term, and an association says what replaces the concept.
const SECOND: [SampleFile; 4] = [
    SampleFile {
        name: "sct2_Concept_Delta_INT_20210131.txt",
        kind: Kind::Concept,
        text: "id\teffectiveTime\tactive\tmoduleId\tdefinitionStatusId\r\n\
               1000004\t20210131\t0\t900000000000207008\t900000000000074008\r\n",
    },
    SampleFile {
        name: "sct2_Description_Delta-en_INT_20210131.txt",
        kind: Kind::Description,
        text: "id\teffectiveTime\tactive\tmoduleId\tconceptId\tlanguageCode\ttypeId\tterm\t\
                 caseSignificanceId\r\n\
               1000015\t20210131\t1\t900000000000207008\t1000004\tde\t900000000000013009\tWeg\t\
                 900000000000448009\r\n",
    },
    SampleFile {
        name: "sct2_Relationship_Delta_INT_20210131.txt",
        kind: Kind::Relationship,
        text: "id\teffectiveTime\tactive\tmoduleId\tsourceId\tdestinationId\trelationshipGroup\t\
               typeId\tcharacteristicTypeId\tmodifierId\r\n\
               2000029\t20210131\t0\t900000000000207008\t1000004\t138875005\t0\t116680003\t\
                 900000000000011006\t900000000000451002\r\n",
    },
    SampleFile {
        name: "der2_cRefset_AssociationDelta_INT_20210131.txt",
        kind: Kind::Association,
        text: "id\teffectiveTime\tactive\tmoduleId\trefsetId\treferencedComponentId\t\
                 targetComponentId\r\n\
               0b6a0c2e-5d0f-4c53-9f6e-8d9d2a7b1c01\t20210131\t1\t900000000000207008\t\
                 900000000000527005\t1000004\t2000001\r\n",
    },
];

/// The release of July 2020: a row that the first one has too, the retirement of a concept, and a
/// concept that the first one lacks.
const THIRD: [SampleFile; 1] = [SampleFile {
    name: "sct2_Concept_Delta_INT_20200731.txt",
    kind: Kind::Concept,
    text: "id\teffectiveTime\tactive\tmoduleId\tdefinitionStatusId\r\n\
           138875005\t20200131\t1\t900000000000207008\t900000000000074008\r\n\
           1000004\t20200731\t0\t900000000000207008\t900000000000074008\r\n\
           3000005\t20200131\t1\t900000000000207008\t900000000000074008\r\n",
}];

/// The release of these files.
fn release_of(alloc: Global, samples: &[SampleFile]) -> Result<Release, AllocError>
    ensures { IfOk result (λ release. files_of release ≡ texts_of samples.now) }
{
    let mut files = Vec::with_capacity(alloc, samples.len())?;
    for sample in samples {
        files.push(ReleaseFile {
            name: String::from_str(alloc, sample.name)?,
            kind: sample.kind,
            bytes: Vec::from_slice(alloc, sample.text.as_bytes())?,
        })?;
    }
    Ok(Release { files })
}

/// The sample release with this name, one of `r1`, `r2` and `r3`: with files like those in a
/// release folder of SNOMED CT, whose lines end with CR LF.
pub fn sample(alloc: Global, name: &str) -> Result<Option<Release>, AllocError>
    // promise: files_are_taken_by_their_names
    ensures { IfOk result (λ found. option_map files_of found ≡ sample_files name.now) }
{
    match name {
        "r1" => Ok(Some(release_of(alloc, &FIRST)?)),
        "r2" => Ok(Some(release_of(alloc, &SECOND)?)),
        "r3" => Ok(Some(release_of(alloc, &THIRD)?)),
        _ => Ok(None),
    }
}
