//! The instances of a class, by ascending number, in room that is reserved.
ghost use Rattle.std.specs.Prelude.{◌≡◌, ◌<◌, [], None, if◌then◌else◌, length, map, option_map, drop, slice_get, is_ok, is_some, true, IfOk, IfErr, IfSome, vec_len, vec_capacity, ◌≤◌};
ghost use Rattle.std.specs.Option.{option_and_then};
ghost use Rattle.std.specs.Result.{result_ok};
ghost use Rattle.managed_entity.specs.Class.{table_at, width_at};
ghost use Rattle.mib_state.specs.Entities.{find, next, place_in, IsAt, IsGapFor};
ghost use Rattle.managed_entity.specs.Instance.{shown_as, value_at};
ghost use Rattle.mib_state.specs.Attached.{least_instance};
ghost use Rattle.managed_entity.specs.Answer.{outcome_of, left_by};
ghost use Rattle.managed_entity.specs.Mask.{mask_of};
ghost use Rattle.mib_state.specs.Step.{get_found, create_in, delete_in, set_in};

use crate::attachment::AttachedEntity;
use managed_entity::{
    Bytes, ManagedEntity, Refusal, check_set, create, get_contents, mask_of, set, set_values,
};
use omci_msg::Request;
use std::alloc::{AllocError, Global};
use std::marker::Model;

/// An instance with its number.
#[derive(Drop)]
struct Row<E> {
    number: u16,
    entity: E,
}

/// The instances of a class, and those that stand ready to be created.
#[derive(Drop)]
pub(crate) struct Instances<E: ManagedEntity> {
    rows: Vec<Row<E>>,
    spare: Vec<E>,
}

impl<E: ManagedEntity> Model for Instances<E> {
    ghost use Rattle.std.specs.Prelude.{List, map, vec_capacity, vec_len, ◌≤◌, ◌≡◌, ◌+◌};
    ghost use Rattle.managed_entity.specs.Instance.{Instance, shown_as};
    ghost use Rattle.mib_state.specs.Entities.{IsAscending};

    ghost Value = { List Instance };

    ghost view = { λ s.
        map (λ row. shown_as row.number (E.values row.entity) (E.entries row.entity))
        s.rows.items };

    ghost invariant = { λ s.
        IsAscending (map (λ row.
        shown_as row.number (E.values row.entity) (E.entries row.entity)) s.rows.items)
        × (E.ROOM ≤ vec_capacity s.rows) × (E.ROOM ≤ vec_capacity s.spare)
        × (vec_len s.rows + vec_len s.spare ≡ E.ROOM) };
}

impl<E: ManagedEntity> Instances<E> {
    /// None, with room for all.
    pub(crate) fn new(alloc: Global) -> Result<Self, AllocError>
        ensures { IfOk result (λ instances. instances ≡ []) }
    {
        Ok(Instances {
            rows: Vec::with_capacity(alloc, E::ROOM)?,
            spare: spare(alloc)?,
        })
    }

    /// Where the number is, or where it would go.
    fn search(&self, number: u16) -> Result<usize, usize>
        ensures found { IfOk result (IsAt self.now number) }
        ensures absent { IfErr result (IsGapFor self.now number) }
        ensures instance { IfOk result (λ place. slice_get self.now place ≡ find number self.now) }
        ensures place { result_ok result ≡ place_in number self.now }
        ensures room { IfOk result (λ place. place < E.ROOM) }
    {
        self.rows.binary_search_by_key(&number, |row| row.number)
    }

    /// The instance of a number.
    pub(crate) fn get(&self, number: u16) -> Option<&E>
        ensures { option_map (λ (entity : _).
            shown_as number (E.values entity.now) (E.entries entity.now)) result
            ≡ find number self.now }
    {
        match self.search(number) {
            Ok(at) => Some(&self.rows[at].entity),
            Err(_) => None,
        }
    }

    /// The number and the instance at a place, instances by ascending number.
    pub(crate) fn at(&self, place: usize) -> Option<(u16, &E)>
        ensures shown { option_map (λ (held : _).
            shown_as held.0 (E.values held.1.now) (E.entries held.1.now)) result
            ≡ slice_get self.now place }
        ensures found { IfSome result (λ held. find held.0 self.now ≡ slice_get self.now place) }
        ensures room { IfSome result (λ held. place < E.ROOM) }
    {
        let row = self.rows.get(place)?;
        Some((row.number, &row.entity))
    }

    /// The number of the instance at a place.
    pub(crate) fn number_at(&self, place: usize) -> Option<u16>
        ensures number { result ≡ option_map (λ (i : _). i.number) (slice_get self.now place) }
        ensures room { IfSome result (λ number. place < E.ROOM) }
    {
        let (number, _) = self.at(place)?;
        Some(number)
    }

    /// The attribute at a place of the instance at another; None for the table.
    pub(crate) fn attribute_at(&self, at: usize, place: usize) -> Option<Bytes>
        ensures value { option_map (λ (bytes : _). bytes.items) result
            ≡ value_at E.layout place (slice_get self.now at) }
        ensures width { IfSome result (λ bytes. length bytes.items ≡ width_at E.layout place) }
    {
        let (_, entity) = self.at(at)?;
        attribute(entity, place)
    }

    /// The place of the instance of a number.
    pub(crate) fn place_of(&self, number: u16) -> Option<usize>
        ensures place { result ≡ place_in number self.now }
        ensures instance { option_and_then (λ (place : _). slice_get self.now place) result
            ≡ find number self.now }
        ensures held { is_some result ≡ is_some (find number self.now) }
        ensures room { IfSome result (λ place. place < E.ROOM) }
    {
        self.search(number).ok()
    }

    /// The attribute at a place of the instance of a number; None for the table.
    pub(crate) fn attribute(&self, number: u16, place: usize) -> Option<Bytes>
        ensures value { option_map (λ (bytes : _). bytes.items) result
            ≡ value_at E.layout place (find number self.now) }
        ensures width { IfSome result (λ bytes. length bytes.items ≡ width_at E.layout place) }
    {
        attribute(self.get(number)?, place)
    }

    /// The answer to a Get.
    pub(crate) fn read(&self, request: &Request) -> Result<[u8; 32], Refusal>
        ensures { result
            ≡ get_found E.layout (mask_of request.now.contents)
            (find request.now.instance self.now) }
    {
        match self.get(request.instance) {
            Some(entity) => Ok(get_contents(entity, mask_of(&request.contents))),
            None => Err(Refusal::UnknownInstance),
        }
    }

    /// The least number that isn't under another.
    pub(crate) fn next(&self, from: u16) -> Option<u16>
        ensures { result ≡ next from self.now }
    {
        match self.search(from) {
            Ok(_) => Some(from),
            Err(at) if at < self.rows.len() => Some(self.rows[at].number),
            Err(_) => None,
        }
    }

    /// Whether a Create is refused.
    pub(crate) fn check_create(&self, request: &Request) -> Result<(), Refusal>
        ensures { result
            ≡ outcome_of (create_in E.layout E.ROOM request.now.instance request.now.contents
            self.now) }
    {
        if request.instance == u16::MAX {
            return Err(Refusal::ParameterError);
        }
        match self.search(request.instance) {
            Ok(_) => Err(Refusal::InstanceExists),
            Err(_) if self.spare.is_empty() => Err(Refusal::ProcessingError),
            Err(_) => Ok(()),
        }
    }

    /// Creates an instance, by a Create that isn't refused.
    pub(crate) fn create(&mut self, request: &Request)
        requires { is_ok (create_in E.layout E.ROOM request.now.instance request.now.contents
            self.old)
            ≡ true }
        ensures { self.new ≡ left_by self.old
            (create_in E.layout E.ROOM request.now.instance request.now.contents self.old) }
    {
        let number = request.instance;
        if let Err(at) = self.search(number) {
            if let Some(mut entity) = self.spare.pop() {
                create(&mut entity, &request.contents);
                let _ = self.rows.insert(at, Row { number, entity });
            }
        }
    }

    /// Whether a Delete is refused.
    #[tactic(auto, unfolding(crate::specs::Step::delete_in))]
    pub(crate) fn check_delete(&self, request: &Request) -> Result<(), Refusal>
        ensures { result ≡ outcome_of (delete_in request.now.instance self.now) }
    {
        match self.get(request.instance) {
            Some(_) => Ok(()),
            None => Err(Refusal::UnknownInstance),
        }
    }

    /// Deletes an instance; one that isn't there changes nothing.
    pub(crate) fn delete(&mut self, request: &Request)
        ensures { self.new ≡ left_by self.old (delete_in request.now.instance self.old) }
    {
        if let Ok(at) = self.search(request.instance) {
            let Row { number: _, entity } = self.rows.remove(at);
            let _ = self.spare.push(entity);
        }
    }

    /// Whether a Set is refused.
    #[tactic(auto, unfolding(crate::specs::Step::set_in), using(crate::proofs::Setting::set_outcome))]
    pub(crate) fn check_set(&self, request: &Request) -> Result<(), Refusal>
        ensures { result ≡ outcome_of (set_in E.layout request.now.instance
            (mask_of request.now.contents) (drop 2 request.now.contents) self.now) }
    {
        match self.get(request.instance) {
            Some(entity) => check_set(
                entity,
                mask_of(&request.contents),
                set_values(&request.contents),
            ),
            None => Err(Refusal::UnknownInstance),
        }
    }

    /// Writes the attributes that a Set names, which isn't refused.
    pub(crate) fn set(&mut self, request: &Request)
        requires { is_ok (set_in E.layout request.now.instance
            (mask_of request.now.contents) (drop 2 request.now.contents) self.old) ≡ true }
        ensures { self.new ≡ left_by self.old (set_in E.layout request.now.instance
            (mask_of request.now.contents) (drop 2 request.now.contents) self.old) }
    {
        if let Ok(at) = self.search(request.instance) {
            let row = &mut self.rows[at];
            set(
                &mut row.entity,
                mask_of(&request.contents),
                set_values(&request.contents),
            );
        }
    }

    /// Deletes them all.
    pub(crate) fn clear(&mut self)
        ensures { self.new ≡ [] }
    {
        while let Some(Row { number: _, entity }) = self.rows.pop() {
            let _ = self.spare.push(entity);
        }
    }
}

impl<E: AttachedEntity> Instances<E> {
    /// The least number of an instance that is attached to a thing of a kind.
    pub(crate) fn attached(&self, kind: u8, to: u16) -> Option<u16>
        ensures { result ≡ least_instance (E.is_attached kind to) self.now }
    {
        for row in &self.rows {
            if row.entity.is_attached(kind, to) {
                return Some(row.number);
            }
        }
        None
    }
}

/// The attribute at a place of an instance; None for the table.
#[tactic(auto, using(managed_entity::proofs::Returned::plain_values))]
pub(crate) fn attribute<E: ManagedEntity>(entity: &E, place: usize) -> Option<Bytes>
    ensures value { option_map (λ (bytes : _). bytes.items) result
        ≡ (if table_at E.layout place then None else slice_get (E.values entity.now) place) }
    ensures width { IfSome result (λ bytes. length bytes.items ≡ width_at E.layout place) }
{
    if is_table::<E>(place) {
        return None;
    }
    entity.returned(place)
}

/// Whether the attribute at a place is the table.
fn is_table<E: ManagedEntity>(place: usize) -> bool
    ensures { result ≡ table_at E.layout place }
{
    let layout = E::layout();
    if place >= layout.len() {
        return false;
    }
    layout[place].access.is_table()
}

/// As many instances as a class may have, to be created later.
fn spare<E: ManagedEntity>(alloc: Global) -> Result<Vec<E>, AllocError>
    ensures { IfOk result (λ spare. (vec_len spare ≡ E.ROOM) × (E.ROOM ≤ vec_capacity spare)) }
{
    let mut spare = Vec::with_capacity(alloc, E::ROOM)?;
    for _n in 0..E::ROOM {
        spare.push(E::new(alloc)?)?;
    }
    Ok(spare)
}
